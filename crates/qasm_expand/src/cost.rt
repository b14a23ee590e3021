//! What calls and statements count. The counts of a definition are kept, so no body is expanded to count a call of it.

ghost use Rattle.std.specs.Prelude.{◌≡◌, ◌+◌, ◌||◌, nat_lt, IfOk, []};
ghost use Rattle.qasm_parse.specs.Faults.{times};
ghost use Rattle.qasm_expand.specs.Limits.{gate_products, if_products, line_of, passing_from};
ghost use Rattle.qasm_expand.specs.inside.Costs.{cost, capped_cost, multiple, call_cost, op_cost, definition_cost, costs_of, statement_cost, is_over};

use patch_base::{Memory, OPERATIONS, PRODUCTS};
use qasm_parse::{Arg, BodyOp, Callee, Gate1, GateDef, Statement};
use std::alloc::Global;

/// What operations add to the flat count and to the number of products. A number that would pass the greatest word stays there.
#[derive(Clone, Copy, Debug, PartialEq, Eq)]
pub struct Cost {
    pub operations: u32,
    pub products: u32,
}

fn counted(operations: u32, products: u32) -> Cost
    ensures { result ≡ cost operations products }
{
    Cost {
        operations,
        products,
    }
}

impl Cost {
    fn plus(self, other: Cost) -> Cost
        ensures { result ≡ capped_cost (self.operations + other.operations)
            (self.products + other.products) }
    {
        counted(
            self.operations.saturating_add(other.operations),
            self.products.saturating_add(other.products),
        )
    }

    fn times(self, n: u32) -> Cost
        ensures { result ≡ multiple n self }
    {
        counted(
            self.operations.saturating_mul(n),
            self.products.saturating_mul(n),
        )
    }

    fn is_over(self) -> bool
        ensures { result ≡ (nat_lt 262144 self.operations || nat_lt 16384 self.products) }
    {
        self.operations > OPERATIONS || self.products > PRODUCTS
    }
}

fn gate_products(gate: Gate1) -> u32
    ensures { result ≡ gate_products gate }
{
    match gate {
        Gate1::T | Gate1::Tdg => 1,
        _ => 0,
    }
}

fn if_products(gate: Gate1) -> u32
    ensures { result ≡ if_products gate }
{
    match gate {
        Gate1::Id => 0,
        _ => 1,
    }
}

/// What a call of a gate costs, with the costs of the definitions.
fn call_cost(known: &[Cost], gate: Callee) -> Cost
    ensures { result ≡ call_cost known.now gate }
{
    match gate {
        Callee::One { gate } => counted(1, gate_products(gate)),
        Callee::Two { .. } => counted(1, 0),
        Callee::Ccx => counted(16, 7),
        Callee::Swap => counted(4, 0),
        Callee::Defined { number } => known.get(number as usize).copied().unwrap_or(counted(0, 0)),
    }
}

fn op_cost(known: &[Cost], op: &BodyOp) -> Cost
    ensures { result ≡ op_cost known.now op.now }
{
    match op {
        BodyOp::Call { gate, .. } => call_cost(known, *gate),
        BodyOp::Barrier => counted(1, 0),
    }
}

/// What a call of a definition costs, with the costs of those before it.
fn definition_cost(known: &[Cost], definition: &GateDef) -> Cost
    ensures { result ≡ definition_cost known.now definition.now }
{
    let mut total = counted(1, 0);
    for op in definition.body.as_slice() {
        total = total.plus(op_cost(known, op));
    }
    total
}

/// What calls of the definitions cost.
pub fn costs(alloc: Global, gates: &[GateDef]) -> Result<Vec<Cost>, Memory>
    ensures { IfOk result (λ v. v.items ≡ costs_of gates.now) }
{
    let mut known = Vec::with_capacity(alloc, gates.len())?;
    for definition in gates {
        let next = definition_cost(&known, definition);
        known.push(next)?;
    }
    Ok(known)
}

/// How often an operation is made on these arguments: once for each index of the first whole register, and once where there is none.
pub fn times(args: &[Arg]) -> u32
    ensures { result ≡ times args.now }
{
    for arg in args {
        if let Arg::Whole { size, .. } = arg {
            return *size;
        }
    }
    1
}

fn statement_cost(known: &[Cost], statement: &Statement) -> Cost
    ensures { result ≡ statement_cost known.now statement.now }
{
    match statement {
        Statement::Call { gate, args, .. } => call_cost(known, *gate).times(times(args.as_slice())),
        Statement::Measure { from, .. } => counted(1, 1).times(times(&[*from])),
        Statement::Barrier { .. } => counted(1, 0),
        Statement::Reset { arg, .. } => counted(1, 2).times(times(&[*arg])),
        Statement::If { gate, arg, .. } => counted(1, if_products(*gate)).times(times(&[*arg])),
    }
}

fn line(statement: &Statement) -> u32
    ensures { result ≡ line_of statement.now }
{
    match statement {
        Statement::Call { line, .. }
        | Statement::Measure { line, .. }
        | Statement::Barrier { line }
        | Statement::Reset { line, .. }
        | Statement::If { line, .. } => *line,
    }
}

/// The line of the statement by which a limit is passed.
pub fn passing(known: &[Cost], statements: &[Statement]) -> Option<u32>
    ensures { result ≡ passing_from (is_over known.now) [] statements.now }
{
    let mut total = counted(0, 0);
    for statement in statements {
        total = total.plus(statement_cost(known, statement));
        if total.is_over() {
            return Some(line(statement));
        }
    }
    None
}
