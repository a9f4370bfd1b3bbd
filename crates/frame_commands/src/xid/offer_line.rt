// An offer as a line.
ghost use Rattle.std.specs.Prelude.{◌≡◌, ◌≤◌, ◌+◌, ◌++◌, length, decimal, ◌<◌, ◌^◌};
ghost use Rattle.frame_commands.specs.Explaining.OfferLine.{offer_line, flag_word};

use command_base::{LINE, ResultLine};
use line_texts::put_decimal;
use xid_params::Offer;

/// Puts a word behind the line, and a number in decimal digits behind the word.
fn put(line: &mut ResultLine, word: &[u8], number: u64)
    requires { length line.old + length word.now + 20 ≤ LINE }
    ensures text { line.new ≡ line.old ++ word.now ++ decimal number }
    ensures room { length line.new ≤ length line.old + length word.now + 20 }
{
    line.extend(word);
    put_decimal(line, number);
}

/// Puts a word behind the line, and behind it 1 where the function is offered and 0 where it isn't.
fn put_flag(line: &mut ResultLine, word: &[u8], flag: bool)
    requires { length line.old + length word.now + 1 ≤ LINE }
    ensures text { line.new ≡ line.old ++ word.now ++ flag_word flag }
    ensures room { length line.new ≤ length line.old + length word.now + 1 }
{
    line.extend(word);
    line.extend(if flag { b"1" } else { b"0" });
}

/// The line of an offer: windows in segments, lengths in octets, and the functions that are offered.
pub(crate) fn offer_line(offer: &Offer) -> ResultLine
    ensures { result ≡ offer_line offer.now }
{
    let mut line = ResultLine::new();
    put(&mut line, b"window tx=", u64::from(offer.tx_window));
    put(&mut line, b" rx=", u64::from(offer.rx_window));
    put(&mut line, b" length tx=", u64::from(offer.tx_len));
    put(&mut line, b" rx=", u64::from(offer.rx_len));
    put_flag(&mut line, b" srej=", offer.srej);
    put_flag(&mut line, b" check32=", offer.check32);
    line.extend(b"\n");
    line
}
