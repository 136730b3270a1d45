// Probing the list of one entry.
ghost use Rattle.std.specs.Prelude.{◌≡◌};
ghost use Rattle.index.specs.Format.{list_of};
ghost use Rattle.directory.specs.Entry.{bad_range, list_probed, probe_of};
ghost use Rattle.directory.specs.Regions.{EntryIn};

use crate::parts::kept_of;
use limits::RECORD_MAX;
use list::probe::Probe;
use refusal::Refusal;

// Whether the range is none to probe: it begins at 0, is turned round, or ends past the last record.
#[tactic(auto, unfolding(crate::specs::Entry::bad_range))]
fn bad_range(a: u32, b: u32) -> bool
    ensures { result ≡ bad_range a b }
{
    (a == 0) | (b < a) | (RECORD_MAX < b)
}

// The probe of an entry that a sound index has.
fn probe_sound(index: &[u8], i: usize, a: u32, b: u32) -> Result<Probe, Refusal>
    requires { EntryIn index.now i }
    ensures { result ≡ list_probed (list_of index.now i) a b }
{
    if bad_range(a, b) {
        return Err(Refusal::ProbeRange);
    }
    Ok(kept_of(index, i).probe(a, b))
}

// Reference 8.4: the two counts, or the first refusal that holds.
#[tactic(auto, unfolding(crate::specs::Entry::probe_of))]
pub fn probe_entry(index: &[u8], entry: u32, a: u32, b: u32) -> Result<Probe, Refusal>
    ensures { result ≡ probe_of index.now entry a b }
{
    crate::entry::entry_refusal(index, entry)?;
    probe_sound(index, entry as usize, a, b)
}
