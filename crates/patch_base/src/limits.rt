// The limits that all crates share.

/// The greatest number of qubits of a circuit, and of patches in a layout.
pub const QUBITS: u32 = 1_024;

/// The greatest number of products of a circuit.
pub const PRODUCTS: u32 = 16_384;

/// The greatest flat count of a circuit: of its operations once every call is replaced by its body.
pub const OPERATIONS: u32 = 262_144;

/// The greatest number of gate definitions of a circuit.
pub const DEFINITIONS: u32 = 1_024;

/// The greatest depth of gate definitions that call one another.
pub const DEPTH: u32 = 64;

/// The greatest number of formal qubits of a gate definition.
pub const FORMALS: u32 = 64;

/// The greatest number of classical registers.
pub const REGISTERS: u32 = 64;

/// The greatest number of classical bits of all registers together.
pub const BITS: u32 = 16_384;

/// The greatest number of cells of a layout.
pub const CELLS: u32 = 4_096;

/// Factories have numbers below this.
pub const FACTORIES: u32 = 16;

/// The greatest store of a factory, in states.
pub const STORE: u32 = 16;

/// The greatest number of failing runs that are listed.
pub const FAILS: u32 = 4_096;

/// The greatest number of routers.
pub const ROUTERS: u32 = 16;

/// The greatest length in bytes of a circuit, a layout or an outcome text.
pub const TEXT_BYTES: u64 = 4_194_304;

/// The greatest length in bytes of a schedule that is read.
pub const SCHEDULE_BYTES: u64 = 67_108_864;
