//! SNPAs, the value of code 6.
ghost use Rattle.std.specs.Prelude.{◌≡◌, ◌≤◌, ◌+◌, ◌*◌, ◌++◌, map, length, Ok, OnOk, OnErr};
ghost use Rattle.isis_tlv.specs.Items.{snpa_at, snpas_of};
ghost use Rattle.isis_tlv.specs.Fits.{IsSnpa};
ghost use Rattle.isis_tlv.specs.Spelling.{snpa_value, snpa_tlv};

use crate::codes;
use crate::items::{Item, Items};
use crate::laws::item_laws;
use crate::put::put_tlv;
use isis_base::{Draft, Octets, OutOfMemory, Snpa};

/// The SNPAs of a value of code 6 (ISO 10589 9.5), in order. A fault is the last item. Contracts see what is left.
pub type SnpaItems<'a> = Items<'a, Snpa>;

/// The SNPAs of a value of code 6.
pub fn snpas(value: &[u8]) -> SnpaItems<'_>
    ensures { result ≡ snpas_of value.now }
{
    Items::new(value)
}

impl Item for Snpa {
    ghost use Rattle.isis_tlv.specs.Items.{snpa_at};
    ghost use Rattle.isis_tlv.specs.Takes.{snpa-takes_one};

    ghost first = { snpa_at };

    ghost takes = { snpa-takes_one };

    fn read_first(octets: &[u8]) -> Option<(Snpa, usize)> {
        let (snpa, _) = octets.split_first_chunk::<6>()?;
        Some((Snpa(*snpa), 6))
    }
}

/// Adds the six octets of an SNPA.
fn add_snpa(draft: &mut Draft, snpa: &Snpa)
    requires { length draft.old + 6 ≤ 255 }
    ensures added { draft.new ≡ draft.old ++ snpa.now.0 }
    ensures count { length draft.new ≡ length draft.old + 6 }
    ensures fits { IsSnpa snpa.now }
{
    draft.add(&snpa.0);
}

/// Adds a TLV of code 6 with these SNPAs, at most 42. At `OutOfMemory` the list is as it was.
pub fn put_snpas(out: &mut Octets, list: &[Snpa]) -> Result<(), OutOfMemory>
    requires { 6 * length list.now ≤ 255 }
    ensures ok { OnOk result (out.new ≡ out.old ++ snpa_tlv list.now) }
    ensures err { OnErr result (out.new ≡ out.old) }
    ensures sized { length (snpa_value list.now) ≡ 6 * length list.now }
    ensures reads { snpas_of (snpa_value list.now) ≡ map (λ snpa. Ok snpa) list.now }
{
    let mut draft = Draft::new();
    for snpa in list {
        add_snpa(&mut draft, snpa);
    }
    item_laws();
    put_tlv(out, codes::SNPAS, draft.as_slice())
}
