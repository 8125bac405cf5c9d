//! The kinds of PDUs that a line leaves out.
ghost use Rattle.std.specs.Prelude.{◌≡◌};
ghost use Rattle.model_network.specs.RunLines as line;

use isis_base::numbers::FRAME;
use model_network::PduWord;

/// Whether a line `run` leaves a datagram out, by the kind of its PDU (own).
pub fn is_left_out(without: Option<PduWord>, octets: &[u8]) -> bool
    ensures { result ≡ line.is_left_out without octets.now }
{
    match without {
        None => false,
        Some(word) => is_of(word, octets),
    }
}

/// Whether a datagram's PDU is of a kind.
fn is_of(word: PduWord, octets: &[u8]) -> bool
    ensures { result ≡ line.is_of word (line.type_of octets.now) }
{
    let code = match octets.get(FRAME + 4) {
        Some(octet) => *octet % 32,
        None => 0,
    };
    match word {
        PduWord::Hello => 15 <= code && code <= 17,
        PduWord::Lsp => code == 18 || code == 20,
        PduWord::Csnp => code == 24 || code == 25,
        PduWord::Psnp => code == 26 || code == 27,
    }
}
