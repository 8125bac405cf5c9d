//! What holds of all that a desk found: a function without a body, whose contract is the law.
ghost use Rattle.std.specs.Prelude.{◌≡◌, ℕ, List, true, Ok};
ghost use Rattle.model_datagram.specs.Tests.{has_number};
ghost use Rattle.router_desk.specs.Desks.{DeskView};
ghost use Rattle.router_desk.specs.Opening.{SeenView, seen_at};

use crate::laws::passed_law;

/// An LSP that a desk found has a number, so that it may be heard.
pub fn numbered_law()
    ensures { (desk : DeskView) (number : ℕ) (datagram : List ℕ) (seen : SeenView)
        → seen_at desk number datagram ≡ Ok seen → has_number seen.pdu ≡ true }
{
    passed_law();
}
