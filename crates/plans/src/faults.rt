// What is wrong with keys and text by their lengths: 01's 1 and 6.
ghost use Rattle.std.specs.Prelude.{◌≡◌};
ghost use Rattle.plans.specs.Plans.{bad_keys, bad_length};

use records::TEXT_MOST;
use sheets::Keys;

#[tactic(auto, unfolding(crate::specs::Plans::bad_keys))]
pub fn bad_keys(keys: Keys) -> bool
    ensures { result ≡ bad_keys keys.entry.old.now keys.entry.new.now }
{
    !eme2::key_taken(keys.old) || !eme2::key_taken(keys.new)
}

// Of a text of l bytes.
#[tactic(auto, unfolding(crate::specs::Plans::bad_length))]
pub fn bad_length(l: usize) -> bool
    ensures { result ≡ bad_length l }
{
    l < 16 || l > TEXT_MOST
}
