//! What a line on standard error says.

use outcome_table::OutcomeFault;
use patch_layout::LayoutFault;
use qasm_lex::CircuitFault;

/// A line that says why a command's output isn't all there.
#[derive(Clone, Copy)]
pub enum FaultLine<'a> {
    /// `words`: the words are those of no command.
    Words,
    /// `read NAME`: reading the text of this name failed.
    Read { name: &'a str },
    /// `circuit LINE KIND`: the circuit's text is refused.
    Circuit(CircuitFault),
    /// `layout KIND ..`: the layout is refused for the circuit.
    Layout(LayoutFault),
    /// `outcomes ..`: the outcomes' text is refused for the circuit and the layout.
    Outcomes(OutcomeFault),
    /// `schedule TooLong`: the schedule's text is past its limit.
    LongSchedule,
    /// `schedule LINE`: the first bad line of the schedule's text.
    BadSchedule { line: u32 },
    /// `write`: the output failed.
    Write,
    /// `memory`: out of memory.
    Memory,
}
