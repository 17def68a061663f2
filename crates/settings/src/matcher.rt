// How a text names a monitor's matcher: by its place in `port|standard`.
ghost use Rattle.std.specs.Prelude.{◌≡◌};
ghost use Rattle.settings.specs.SettingsText.{matching_number, matching_at};

use topics::matching::Matching;

// A matcher's place.
// `topics` knows no text, so the numbers are here.
pub(crate) fn matching_number(matching: Matching) -> u8
    ensures { result ≡ matching_number matching }
{
    match matching {
        Matching::Port => 0,
        Matching::Standard => 1,
    }
}

// The matcher at its place.
// The definition answers for every number, so no `TryFrom`.
pub(crate) fn matching_at(k: u64) -> Matching
    ensures { result ≡ matching_at k }
{
    if k == 0 {
        return Matching::Port;
    }
    Matching::Standard
}
