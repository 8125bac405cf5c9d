//! The types of PDUs.
ghost use Rattle.std.specs.Prelude.{◌≡◌};
ghost use Rattle.isis_base.specs.PduKinds.{type_number, kind_of_number, header_length, is_hello, length_place};

use crate::level::Level;

/// The type of a PDU (ISO 10589 9): a hello of one level on a LAN, a hello on a point-to-point link, a link state PDU, a
/// complete or a partial sequence numbers PDU.
#[derive(Clone, Copy, Debug, PartialEq, Eq)]
pub enum PduKind {
    LanHello(Level),
    PointHello,
    Lsp(Level),
    Csnp(Level),
    Psnp(Level),
}

impl PduKind {
    /// The type of this number (ISO 10589 9).
    #[tactic(auto, unfolding(crate::specs::PduKinds::kind_of_number))]
    pub fn of_number(number: u8) -> Option<PduKind>
        ensures { result ≡ kind_of_number number }
    {
        match number {
            15 => Some(PduKind::LanHello(Level::One)),
            16 => Some(PduKind::LanHello(Level::Two)),
            17 => Some(PduKind::PointHello),
            18 => Some(PduKind::Lsp(Level::One)),
            20 => Some(PduKind::Lsp(Level::Two)),
            24 => Some(PduKind::Csnp(Level::One)),
            25 => Some(PduKind::Csnp(Level::Two)),
            26 => Some(PduKind::Psnp(Level::One)),
            27 => Some(PduKind::Psnp(Level::Two)),
            _ => None,
        }
    }

    /// The number of this type.
    pub fn number(self) -> u8
        ensures { result ≡ type_number self }
    {
        match self {
            PduKind::LanHello(Level::One) => 15,
            PduKind::LanHello(Level::Two) => 16,
            PduKind::PointHello => 17,
            PduKind::Lsp(Level::One) => 18,
            PduKind::Lsp(Level::Two) => 20,
            PduKind::Csnp(Level::One) => 24,
            PduKind::Csnp(Level::Two) => 25,
            PduKind::Psnp(Level::One) => 26,
            PduKind::Psnp(Level::Two) => 27,
        }
    }

    /// How many octets the header has.
    pub fn header_length(self) -> u8
        ensures { result ≡ header_length self }
    {
        match self {
            PduKind::LanHello(_) | PduKind::Lsp(_) => 27,
            PduKind::PointHello => 20,
            PduKind::Csnp(_) => 33,
            PduKind::Psnp(_) => 17,
        }
    }

    /// Whether this is a hello.
    pub fn is_hello(self) -> bool
        ensures { result ≡ is_hello self }
    {
        matches!(self, PduKind::LanHello(_) | PduKind::PointHello)
    }

    /// Where the PDU length stands.
    pub fn length_place(self) -> usize
        ensures { result ≡ length_place self }
    {
        if self.is_hello() { 17 } else { 8 }
    }
}
