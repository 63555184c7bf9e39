// The least of places.
ghost use Rattle.std.specs.Prelude.{◌≡◌, Some};
ghost use Rattle.net_names.specs.Places.{unless, sooner, least_place};

/// The lesser of what was found and a place.
pub fn sooner(found: Option<u64>, place: u64) -> Option<u64>
    ensures { result ≡ sooner found (Some place) }
{
    match found {
        Some(before) if before < place => Some(before),
        _ => Some(place),
    }
}

/// The least of what was found and of this place, unless the test holds.
pub fn unless(test: bool, place: u64, found: Option<u64>) -> Option<u64>
    ensures { result ≡ sooner found (least_place (unless test place)) }
{
    if test { found } else { sooner(found, place) }
}
