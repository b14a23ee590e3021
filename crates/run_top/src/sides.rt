//! Programs side by side, read from a shelf as one job.

ghost use Rattle.std.specs.Prelude.{◌≡◌, ◌*◌, ◌+◌, ◌<◌, ◌≤◌, ◌==◌, ℕ, List, [], All, IsTrue, Some, if◌then◌else◌, length, map, string_bytes, slice_get, IfOk, IfErr, MatchResult};
ghost use Rattle.source_model.specs.Circuits.{WellFormed};
ghost use Rattle.patch_layout.specs.Grid.{Grid};
ghost use Rattle.job_read.specs.Kept.{IsCircuit};
ghost use Rattle.job_read.specs.Shelves.{seen_on, shelved};
ghost use Rattle.job_read.specs.Stages.{CircuitStands, factories_in};
ghost use Rattle.job_read.specs.declared.fault.JobFault.{JobFault as JobFault_of};
ghost use Rattle.tool_words.specs.Commands.{ArePairs};
ghost use Rattle.side_by_side.specs.Joined.{IsJoinOf};
ghost use Rattle.run_top.specs.declared.fault.RunFault.{RunFault as Fault_of};
ghost use Rattle.run_top.specs.Sides.{AreCircuits, Sides, StandForSides, TableStands, TablesStand, circuit_at, outcomes_at};
ghost use Rattle.run_top.specs.SideFaults.{StopsAtSides, TellAllSides};
ghost use Rattle.run_top.specs.Told.{IsOutside, RefusesSides};
ghost use Rattle.run_top.specs.inside.Told.{EndsBy};
ghost use Rattle.run_top.specs.inside.Reads.{AreTablesFor, CircuitsStop, IsSideJob, IsTableOf, JoinStops, StopsOne, StopsTable, TablesStop};

use crate::fault::RunFault;
use crate::names::name_at;
use job_read::{Job, JobFault, Products, load_circuit, load_layout, load_outcomes};
use outcome_table::Outcomes;
use patch_base::{Memory, Need, Shelf, Used};
use patch_layout::Layout;
use qasm_lex::{CircuitFault, FaultKind};
use rotation_list::{law_one_circuit, statics};
use side_by_side::{JoinFault, Joined, join, join_outcomes, law_joined};
use source_model::{Circuit, law_kinds};
use std::alloc::Global;

/// The joined job of the programs whose texts have these names, a circuit and outcomes for each, and of a layout.
///
/// Each circuit is read and accepted before the next one; then all are joined, the layout is read, and the outcomes of each
/// program. Failing runs of factories stand in the outcomes of the first program alone.
///
/// # Errors
///
/// `Program` with the program whose text can't be read or is refused; `Job` where that is the layout, and, with line 0 and
/// TooMany, where the joined circuit passes a limit; `Memory` out of memory.
pub(crate) fn read_sides<S: Shelf>(
    alloc: Global,
    layout: &str,
    pairs: &[String],
    shelf: &mut S,
) -> Result<Job, RunFault>
    requires { ArePairs (map string_bytes pairs.now) }
    ensures told { (n : List ℕ) → S.tells shelf.new n ≡ S.tells shelf.old n }
    ensures counts { (n : List ℕ) → S.faults shelf.old n ≤ S.faults shelf.new n }
    ensures read { let r = shelved S.tells S.faults shelf.old shelf.new in
        IfOk result (IsSideJob r layout.now (map string_bytes pairs.now)) }
    ensures stops { let r = shelved S.tells S.faults shelf.old shelf.new in
        IfErr result (StopsAtSides r layout.now (map string_bytes pairs.now)) }

    // Texts that are told are accepted or refused for what they say, unless the outside keeps them from being read.
    ensures exact { let r = shelved S.tells S.faults shelf.old shelf.new in
        let names = map string_bytes pairs.now in
        (s : Sides) → TellAllSides r layout.now names → StandForSides r layout.now names s
        → IfErr result IsOutside }
    ensures faults { let r = shelved S.tells S.faults shelf.old shelf.new in
        (f : Fault_of) → RefusesSides r layout.now (map string_bytes pairs.now) f
        → EndsBy f result }
{
    law_kinds();
    law_joined();
    law_one_circuit();
    outcome_table::law_one_fault();
    outcome_table::law_table_or_fault();
    let circuits = load_circuits(alloc, pairs, shelf)?;
    let joined = join_all(alloc, &circuits)?;
    let products = statics(alloc, &joined.circuit)?;
    let layout = load_layout(alloc, shelf, layout, &joined.circuit, &products)?;
    let tables = load_tables(alloc, pairs, &circuits, &layout, shelf)?;
    let outcomes = join_outcomes(alloc, &joined, tables)?;
    Ok(Job {
        circuit: joined.circuit,
        products: Products::of(products),
        layout,
        outcomes,
    })
}

// The circuits of all programs.
fn load_circuits<S: Shelf>(
    alloc: Global,
    pairs: &[String],
    shelf: &mut S,
) -> Result<Vec<Circuit>, RunFault>
    requires { ArePairs (map string_bytes pairs.now) }
    ensures told { (n : List ℕ) → S.tells shelf.new n ≡ S.tells shelf.old n }
    ensures counts { (n : List ℕ) → S.faults shelf.old n ≤ S.faults shelf.new n }
    ensures stand { let r = shelved S.tells S.faults shelf.old shelf.new in
        IfOk result (λ cs. AreCircuits r (map string_bytes pairs.now) cs.items) }
    ensures kept { IfOk result (λ cs. All IsCircuit cs.items) }
    ensures stops { let r = shelved S.tells S.faults shelf.old shelf.new in
        IfErr result (CircuitsStop r (map string_bytes pairs.now)) }
{
    let mut circuits = Vec::new(alloc);
    for program in 0..pairs.len() / 2 {
        let circuit = load_one(alloc, pairs, program, shelf)?;
        circuits.push(circuit)?;
    }
    Ok(circuits)
}

// The circuit of one program.
fn load_one<S: Shelf>(
    alloc: Global,
    pairs: &[String],
    program: usize,
    shelf: &mut S,
) -> Result<Circuit, RunFault>
    requires { program < 8 }
    ensures told { (n : List ℕ) → S.tells shelf.new n ≡ S.tells shelf.old n }
    ensures counts { (n : List ℕ) → S.faults shelf.old n ≤ S.faults shelf.new n }
    ensures stands { let r = shelved S.tells S.faults shelf.old shelf.new in
        IfOk result (CircuitStands (seen_on r (circuit_at (map string_bytes pairs.now) program))) }
    ensures kept { IfOk result IsCircuit }
    ensures stops { let r = shelved S.tells S.faults shelf.old shelf.new in
        IfErr result (StopsOne r (map string_bytes pairs.now) program) }
{
    match load_circuit(alloc, shelf, name_at(pairs, 2 * program)) {
        Ok(circuit) => Ok(circuit),
        Err(fault) => Err(of_program(program, fault)),
    }
}

// A fault of a text of a program.
fn of_program(program: usize, fault: JobFault) -> RunFault
    requires { program < 8 }
    ensures { result ≡ RunFault.Program program fault }
{
    RunFault::Program {
        program: program as u32,
        fault,
    }
}

// The circuits as one.
fn join_all(alloc: Global, circuits: &[Circuit]) -> Result<Joined, RunFault>
    requires some { 1 ≤ length circuits.now }
    requires few { length circuits.now ≤ 8 }
    requires each { All WellFormed circuits.now }
    ensures joined { IfOk result (IsJoinOf circuits.now) }
    ensures well_formed { IfOk result (λ j. WellFormed j.circuit) }
    ensures stops { IfErr result (JoinStops circuits.now) }
{
    match join(alloc, circuits) {
        Ok(joined) => Ok(joined),
        Err(JoinFault::TooMany { .. }) => Err(RunFault::Job(JobFault::Circuit(CircuitFault::At {
            line: 0,
            kind: FaultKind::TooMany,
        }))),
        Err(JoinFault::Memory) => Err(RunFault::Memory),
    }
}

// A layout without ports.
fn no_ports(alloc: Global) -> Result<Layout, Memory>
    ensures { IfOk result (λ g. factories_in g.sites ≡ []) }
{
    let need = Need {
        qubits: 0,
        used: Used::of(Vec::new(alloc)),
        rotations: false,
    };
    match Layout::read(alloc, b"layout 1 1 1\n", &need) {
        Ok(layout) => Ok(layout),
        Err(_) => Err(Memory),
    }
}

// The layout whose factories are known to a program: for all but the first one that without ports.
fn known_to<'a>(program: usize, layout: &'a Layout, none: &'a Layout) -> &'a Layout
    requires { factories_in none.now.sites ≡ [] }
    ensures { factories_in result.now.sites ≡
        (if program == 0 then factories_in layout.now.sites else []) }
{
    if program == 0 { layout } else { none }
}

// The outcomes of all programs, for their circuits and a layout.
fn load_tables<S: Shelf>(
    alloc: Global,
    pairs: &[String],
    circuits: &[Circuit],
    layout: &Layout,
    shelf: &mut S,
) -> Result<Vec<Outcomes>, RunFault>
    requires few { length circuits.now ≤ 8 }
    requires each { All WellFormed circuits.now }
    ensures told { (n : List ℕ) → S.tells shelf.new n ≡ S.tells shelf.old n }
    ensures counts { (n : List ℕ) → S.faults shelf.old n ≤ S.faults shelf.new n }
    ensures count { IfOk result (λ os. length os.items ≡ length circuits.now) }
    ensures stand { let r = shelved S.tells S.faults shelf.old shelf.new in
        IfOk result
        (λ os. TablesStand r (map string_bytes pairs.now) circuits.now layout.now os.items) }
    ensures kept { IfOk result (λ os. AreTablesFor circuits.now os.items) }
    ensures stops { let r = shelved S.tells S.faults shelf.old shelf.new in
        IfErr result (TablesStop r (map string_bytes pairs.now) circuits.now layout.now) }
{
    let none = no_ports(alloc)?;
    let mut tables = Vec::new(alloc);
    for program in 0..circuits.len() {
        let known = known_to(program, layout, &none);
        let table = load_table(alloc, pairs, program, &circuits[program], known, shelf)?;
        tables.push(table)?;
    }
    Ok(tables)
}

// The outcomes of one program, for its circuit and a layout with the factories that are known to it.
fn load_table<S: Shelf>(
    alloc: Global,
    pairs: &[String],
    program: usize,
    circuit: &Circuit,
    known: &Layout,
    shelf: &mut S,
) -> Result<Outcomes, RunFault>
    requires few { program < 8 }
    requires circuit { WellFormed circuit.now }
    ensures told { (n : List ℕ) → S.tells shelf.new n ≡ S.tells shelf.old n }
    ensures counts { (n : List ℕ) → S.faults shelf.old n ≤ S.faults shelf.new n }
    ensures stands { let r = shelved S.tells S.faults shelf.old shelf.new in
        IfOk result (λ o. (g : Grid) → factories_in known.now.sites
        ≡ (if program == 0 then factories_in g.sites else []) →
        TableStands (seen_on r (outcomes_at (map string_bytes pairs.now) program)) program
        circuit.now g o) }
    ensures kept { IfOk result (IsTableOf circuit.now) }
    ensures stops { let r = shelved S.tells S.faults shelf.old shelf.new in
        IfErr result (λ f. (g : Grid) → factories_in known.now.sites
        ≡ (if program == 0 then factories_in g.sites else []) →
        StopsTable r (map string_bytes pairs.now) program circuit.now g f) }
{
    let products = match statics(alloc, circuit) {
        Ok(products) => products,
        Err(_) => return Err(of_program(program, JobFault::Memory)),
    };
    let name = name_at(pairs, 2 * program + 1);
    match load_outcomes(alloc, shelf, name, circuit, &products, known) {
        Ok(table) => Ok(table),
        Err(fault) => Err(of_program(program, fault)),
    }
}
