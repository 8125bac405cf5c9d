//! Area addresses, the value of code 1.
ghost use Rattle.std.specs.Prelude.{◌≡◌, ◌≤◌, ◌+◌, ◌++◌, map, length, Ok, OnOk, OnErr};
ghost use Rattle.isis_tlv.specs.Items.{area_at, areas_of};
ghost use Rattle.isis_tlv.specs.Fits.{IsArea};
ghost use Rattle.isis_tlv.specs.Spelling.{area_octets, area_value, area_tlv};

use crate::codes;
use crate::items::{Item, Items};
use crate::laws::item_laws;
use crate::put::put_tlv;
use isis_base::{AreaAddress, Draft, Octets, OutOfMemory};

/// The area addresses of a value of code 1, in order. A fault is the last item. Contracts see what is left.
pub type AreaItems<'a> = Items<'a, AreaAddress>;

/// The area addresses of a value of code 1 (ISO 10589 9.5). A length other than 1 to 13 is a fault.
pub fn areas(value: &[u8]) -> AreaItems<'_>
    ensures { result ≡ areas_of value.now }
{
    Items::new(value)
}

impl Item for AreaAddress {
    ghost use Rattle.isis_tlv.specs.Items.{area_at};
    ghost use Rattle.isis_tlv.specs.Takes.{area-takes_one};

    ghost first = { area_at };

    ghost takes = { area-takes_one };

    fn read_first(octets: &[u8]) -> Option<(AreaAddress, usize)> {
        let [count, octets @ ..] = octets else {
            return None;
        };
        let count = usize::from(*count);
        if count > octets.len() {
            return None;
        }
        let area = AreaAddress::new(&octets[..count])?;
        Some((area, 1 + count))
    }
}

/// Adds the length and the octets of an area address.
fn add_area(draft: &mut Draft, area: &AreaAddress)
    requires { length draft.old + length (area_octets area.now) ≤ 255 }
    ensures added { draft.new ≡ draft.old ++ area_octets area.now }
    ensures fits { IsArea area.now }
{
    let octets = area.octets();
    draft.add(&[octets.len() as u8]);
    draft.add(octets);
}

/// Adds a TLV of code 1 with these area addresses. Its value has at most 255 octets. At `OutOfMemory` the list is
/// as it was.
pub fn put_areas(out: &mut Octets, areas: &[AreaAddress]) -> Result<(), OutOfMemory>
    requires { length (area_value areas.now) ≤ 255 }
    ensures ok { OnOk result (out.new ≡ out.old ++ area_tlv areas.now) }
    ensures err { OnErr result (out.new ≡ out.old) }
    ensures reads { areas_of (area_value areas.now) ≡ map (λ area. Ok area) areas.now }
{
    let mut draft = Draft::new();
    for area in areas {
        add_area(&mut draft, area);
    }
    item_laws();
    put_tlv(out, codes::AREAS, draft.as_slice())
}
