// What finds places at which items are at fault.
ghost use Rattle.std.specs.Prelude.{◌≡◌, flat_map, IfOk};
ghost use Rattle.net_names.specs.Places.{sooner, least_place};

use polis_base::{List, NoMemory};

// What finds places in items of one kind.
pub(crate) trait Check<T> {
    ghost use Rattle.std.specs.Prelude.{List, ℕ};

    // The places where an item is at fault.
    ghost places: { Self → T → List ℕ };

    // The least of these and of what was found.
    fn check(&self, item: &T, found: Option<u64>) -> Result<Option<u64>, NoMemory>
        ensures { IfOk result (λ place. place ≡ sooner found (least_place (places self.now item.now))) };
}

// The least place at which one of the items is at fault, and of what was found.
fn check_each<T, C: Check<T>>(
    check: &C,
    items: &[T],
    found: Option<u64>,
) -> Result<Option<u64>, NoMemory>
    ensures { IfOk result (λ place. place
        ≡ sooner found (least_place (flat_map (C.places check.now) items.now))) }
{
    let mut found = found;
    for item in items {
        found = check.check(item, found)?;
    }
    Ok(found)
}

// The least place at which one of the items of a list is at fault, and of what was found.
pub(crate) fn check_all<T, C: Check<T>>(
    check: &C,
    items: &List<T>,
    found: Option<u64>,
) -> Result<Option<u64>, NoMemory>
    ensures { IfOk result (λ place. place
        ≡ sooner found (least_place (flat_map (C.places check.now) items.now))) }
{
    check_each(check, items.as_slice(), found)
}
