// Laws of the recount.
ghost use Rattle.std.specs.Prelude.{◌≡◌, ◌≢◌, ℕ, List, [], AllPairs, Contains};
ghost use Rattle.magic_pool.specs.declared.Fail.{Fail};
ghost use Rattle.magic_pool.specs.Recount.{ready_of};
ghost use Rattle.magic_pool.specs.Given.{Event, given_after};

/// Over any list of steps and takes no state is given twice.
pub fn law_once()
    ensures { (fails : List Fail) (events : List Event)
        → AllPairs (λ s t. s ≢ t) (given_after fails [] [] events) }
{}

/// Ready states of different factories are different.
pub fn law_apart()
    ensures { (fails : List Fail) (steps taken : List ℕ) (f g s : ℕ) → f ≢ g
        → Contains (ready_of fails steps taken f) s → Contains (ready_of fails steps taken g) s
        → ⊥ }
{}
