//! The tree of a circuit text: its statements in order, with all names resolved to numbers.

use patch_base::Listed;

/// A gate on one qubit.
#[derive(Clone, Copy, Debug, PartialEq, Eq)]
pub enum Gate1 {
    Id,
    X,
    Y,
    Z,
    H,
    S,
    Sdg,
    Sx,
    Sxdg,
    T,
    Tdg,
}

/// A gate on two qubits.
#[derive(Clone, Copy, Debug, PartialEq, Eq)]
pub enum Gate2 {
    Cx,
    Cy,
    Cz,
}

/// What a call calls. The text's own definitions are numbered from 0.
#[derive(Clone, Copy, Debug, PartialEq, Eq)]
pub enum Callee {
    One { gate: Gate1 },
    Two { gate: Gate2 },
    Ccx,
    Swap,
    Defined { number: u32 },
}

/// An argument: a whole register by its first number and its size, or one qubit or bit by its number. Qubits are numbered over all
/// quantum registers in the order of their declaration, and bits over the classical ones.
#[derive(Clone, Copy, Debug, PartialEq, Eq)]
pub enum Arg {
    Whole { first: u32, size: u32 },
    Single { index: u32 },
}

/// A statement of a definition's body. Formal qubits are numbered from 0.
#[derive(Debug, Drop)]
pub enum BodyOp {
    Call { gate: Callee, formals: Listed<u32> },
    Barrier,
}

/// A definition: the number of its formal qubits, and its body.
#[derive(Debug, Drop)]
pub struct GateDef {
    pub formals: u32,
    pub body: Listed<BodyOp>,
}

/// A statement outside of definitions, with the line of its first token.
#[derive(Debug, Drop)]
pub enum Statement {
    Call {
        line: u32,
        gate: Callee,
        args: Listed<Arg>,
    },
    Measure {
        line: u32,
        from: Arg,
        to: Arg,
    },
    Barrier {
        line: u32,
    },
    Reset {
        line: u32,
        arg: Arg,
    },
    /// A gate that is applied where the bits of a register, the first with weight 1, give a value.
    If {
        line: u32,
        first: u32,
        size: u32,
        value: u32,
        gate: Gate1,
        arg: Arg,
    },
}

/// A register: the span of its name in the text, its first number and its size.
#[derive(Clone, Copy, Debug, PartialEq, Eq)]
pub struct Declared {
    pub start: u32,
    pub end: u32,
    pub first: u32,
    pub size: u32,
}

/// A circuit text, with all names resolved.
#[derive(Debug, Drop)]
pub struct Tree {
    pub quantum: Listed<Declared>,
    pub classical: Listed<Declared>,
    pub gates: Listed<GateDef>,
    pub statements: Listed<Statement>,
}
