//! The attached bit (ISO 10589 7.2.9.2).
ghost use Rattle.std.specs.Prelude.{◌≡◌, map};
ghost use Rattle.std.specs.List.{list_any};
ghost use Rattle.route_leaking.specs.Attachment.{has_area, is_elsewhere, is_attached};

use isis_base::AreaAddress;

/// Whether a router of these area addresses is attached: some system that it reaches in level 2, of whose area addresses
/// `reached` has a list each, says some and shares none. It takes no memory.
pub fn attached(areas: &[AreaAddress], reached: &[Vec<AreaAddress>]) -> bool
    ensures { result ≡ is_attached areas.now (map (λ list. list.items) reached.now) }
{
    for others in reached {
        if is_elsewhere(areas, others.as_slice()) {
            return true;
        }
    }
    false
}

/// Whether there are others, and none of them is one's own.
fn is_elsewhere(areas: &[AreaAddress], others: &[AreaAddress]) -> bool
    ensures { result ≡ is_elsewhere areas.now others.now }
{
    !others.is_empty() && !shares(areas, others)
}

fn shares(areas: &[AreaAddress], others: &[AreaAddress]) -> bool
    ensures { result ≡ list_any (has_area areas.now) others.now }
{
    for area in others {
        if has_area(areas, area.octets()) {
            return true;
        }
    }
    false
}

fn has_area(areas: &[AreaAddress], octets: &[u8]) -> bool
    ensures { result ≡ has_area areas.now octets.now }
{
    for own in areas {
        if own.octets() == octets {
            return true;
        }
    }
    false
}
