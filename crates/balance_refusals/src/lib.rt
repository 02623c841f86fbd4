// Whether the volumes can be balanced at all, by whole numbers alone.
#![tactic(auto)]

ghost use Rattle.std.specs.Prelude.{◌≡◌};
ghost use Rattle.balance_refusals.specs.Refusals.{no_volume, meets, unserved_entry, any_unserved_entry, any_unserved_exit};

use movements::{Counts, Seeds};

#[tactic(auto, unfolding(crate::specs::Refusals::no_volume))]
pub fn no_volume(o: Counts, exits: Counts) -> bool
    ensures { result ≡ no_volume o exits }
{
    (o.sum() == 0) | (exits.sum() == 0)
}

#[tactic(auto, unfolding(crate::specs::Refusals::meets))]
fn meets(x: Counts, y: Counts) -> bool
    ensures { result ≡ meets x y }
{
    x.zip_with(y, |x, y| (0 < x) & (0 < y)).any()
}

#[tactic(auto, unfolding(crate::specs::Refusals::unserved_entry))]
fn unserved_entry(exits: Counts, o: u32, seeds: Counts) -> bool
    ensures { result ≡ unserved_entry exits o seeds }
{
    (0 < o) & !meets(exits, seeds)
}

#[tactic(auto, unfolding(crate::specs::Refusals::any_unserved_entry))]
pub fn any_unserved_entry(o: Counts, exits: Counts, s: Seeds) -> bool
    ensures { result ≡ any_unserved_entry o exits s }
{
    o.zip_with(s, |o, seeds| unserved_entry(exits, o, seeds))
        .any()
}

// The entries' test with the two sides exchanged. Volumes and seeds stand apart, not in one struct, so that a call can exchange them.
#[tactic(auto, using(crate::proofs::Exits::as_entries))]
pub fn any_unserved_exit(o: Counts, exits: Counts, s: Seeds) -> bool
    ensures { result ≡ any_unserved_exit o exits s }
{
    any_unserved_entry(exits, o, s.transposed())
}
