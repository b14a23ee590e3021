//! Statements as they are spelled: names and numbers are places of tokens.

use patch_base::Listed;

/// A register, or one of its members. Names and numbers are places of tokens.
#[derive(Clone, Copy, Debug, PartialEq, Eq)]
pub enum Argument {
    Whole { name: usize },
    Single { name: usize, index: usize },
}

/// A call of a gate by its name; brackets may stand after it.
#[derive(Debug, Drop)]
pub struct GateCall {
    pub name: usize,
    pub brackets: bool,
    pub args: Listed<Argument>,
}

/// A statement of a definition's body.
#[derive(Debug, Drop)]
pub enum BodyStatement {
    Call {
        name: usize,
        brackets: bool,
        formals: Listed<usize>,
    },
    Cx {
        at: usize,
        formals: Listed<usize>,
    },
    Barrier {
        formals: Listed<usize>,
    },
}

/// A statement as it is spelled. Names and numbers are places of tokens.
#[derive(Debug, Drop)]
pub enum Sentence {
    Include,
    Qreg {
        name: usize,
        size: usize,
    },
    Creg {
        name: usize,
        size: usize,
    },
    Gate {
        name: usize,
        brackets: bool,
        formals: Listed<usize>,
        body: Listed<BodyStatement>,
    },
    Call {
        call: GateCall,
    },
    If {
        register: usize,
        value: usize,
        call: GateCall,
    },
    Cx {
        args: Listed<Argument>,
    },
    Measure {
        from: Argument,
        to: Argument,
    },
    Barrier {
        args: Listed<Argument>,
    },
    Reset {
        arg: Argument,
    },
}
