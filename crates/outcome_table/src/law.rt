//! Laws of outcome texts, over definitions alone.
//!
//! The functions do nothing: each carries a law in its contract.

ghost use Rattle.std.specs.Prelude.{◌≡◌, ℕ, List};
ghost use Rattle.magic_pool.specs.declared.Fail.{Fail};
ghost use Rattle.source_model.specs.declared.Given.{Given};
ghost use Rattle.outcome_table.specs.declared.fault.OutcomeFault.{OutcomeFault};
ghost use Rattle.outcome_table.specs.Laws.{TableOrFault};
ghost use Rattle.outcome_table.specs.OutcomeText.{Asked, StandsFor, Refuses};

/// A text stands for at most one table and one list of failing runs.
pub fn law_one_table()
    ensures { (a : Asked) (text : List ℕ) (given given' : List Given) (fails fails' : List Fail)
        → StandsFor a text given fails → StandsFor a text given' fails'
        → (given ≡ given') × (fails ≡ fails') }
{}

/// A text is refused with at most one fault.
pub fn law_one_fault()
    ensures { (a : Asked) (text : List ℕ) (f f' : OutcomeFault)
        → Refuses a text f → Refuses a text f' → f ≡ f' }
{}

/// No text that stands for a table is refused.
pub fn law_table_or_fault()
    ensures { (a : Asked) (text : List ℕ) (given : List Given) (fails : List Fail)
        (f : OutcomeFault)
        → StandsFor a text given fails → Refuses a text f → ⊥ }
{}

/// Each text stands for a table and a list of failing runs, or is refused.
pub fn law_answer()
    ensures { TableOrFault }
{}
