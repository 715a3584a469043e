// How a budget is parted. Pieces join: crates/run and crates/traced have the theorems.
ghost use Rattle.std.specs.Prelude.{◌≡◌, ◌-◌, ◌≤◌};
ghost use Rattle.pails.specs.Pails.{first_of, left_of};

// The first piece of a budget, or the next one of what is left. A budget that is refused goes to the core as it is.
pub fn first(budget: u32, size: u32) -> u32
    ensures { result ≡ first_of budget size }
{
    if 1_000_000 < budget {
        return budget;
    }
    budget.min(size)
}

// What is left after a piece of that size; after an empty one nothing, so that pieces come to an end.
pub fn left_after(left: u32, size: u32) -> u32
    ensures value { result ≡ left_of left size }
    ensures less { result ≤ left - 1 }
{
    if size == 0 {
        return 0;
    }
    left.saturating_sub(size)
}
