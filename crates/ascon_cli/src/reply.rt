//! The results that lines ask for.

ghost use Rattle.std.specs.Prelude.{◌≡◌, ◌++◌, Some, None, MatchOption};
ghost use Rattle.ascon_cli.specs.Errors.{Grew};
ghost use Rattle.lines.specs.Hex.{encoded};
ghost use Rattle.ascon_cli.specs.Format.{result_of, shown, unsealed};
ghost use Rattle.ascon_cli.specs.Views.{asked_of, output_of, parts_of};
ghost use Rattle.ascon_cli.specs.Format.{hashing, opening, sealing};

use crate::answers::Answers;
use crate::request::{Output, Packet, Request};
use crate::secret::Secret;
use std::alloc::AllocError;

/// Adds the result of `request` to `out`.
///
/// `line` has been read: where `out` would have no room for the end of the line behind the digits,
/// these lie in the memory of `line` until what the request holds is let go.
pub fn perform(request: Request, line: &mut Secret, out: &mut Answers) -> Result<(), AllocError>
    ensures { Grew result out.old out.new (result_of (asked_of request)) }
{
    answer(request, line, out)?;
    if line.is_empty() {
        return Ok(());
    }
    out.reserve(line.len().saturating_add(1))?;
    out.extend(line.as_slice())
}

// The result lies behind `out` then, or in `line`.
fn answer(request: Request, line: &mut Secret, out: &mut Answers) -> Result<(), AllocError>
    ensures { Grew result out.old (out.new ++ line.new) (result_of (asked_of request)) }
{
    match request {
        Request::Seal(packet) => seal(packet, line, out),
        Request::Open(packet) => open(packet, line, out),
        Request::Hash(text) => hash(text, line, out),
        Request::Xof(output) => xof(output, line, out),
    }
}

fn seal(packet: Packet, line: &mut Secret, out: &mut Answers) -> Result<(), AllocError>
    ensures { Grew result out.old (out.new ++ line.new) (result_of (sealing (parts_of packet))) }
{
    let Packet { context, mut text } = packet;
    let tag = context.aead().seal(text.as_mut_slice());
    add_digits(text.as_slice(), &tag, line, out)
}

fn open(packet: Packet, line: &mut Secret, out: &mut Answers) -> Result<(), AllocError>
    ensures { Grew result out.old (out.new ++ line.new) (result_of (opening (parts_of packet))) }
{
    match unseal(packet) {
        Some(text) => show(text.as_slice(), line, out),
        None => say(b"refused", line, out),
    }
}

// The text that was sealed, if the last 16 bytes are its tag.
fn unseal(packet: Packet) -> Option<Secret>
    ensures { MatchOption result (unsealed (parts_of packet) ≡ None) (λ s. unsealed (parts_of packet) ≡ Some s) }
{
    let Packet { context, mut text } = packet;
    let (sealed, tag) = text.as_slice().split_last_chunk::<16>()?;
    let (length, tag) = (sealed.len(), *tag);
    text.truncate(length);
    context.aead().open(text.as_mut_slice(), &tag).ok()?;
    Some(text)
}

#[tactic(auto, unfolding(lines::specs::Hex::encoded))]
fn hash(text: Secret, line: &mut Secret, out: &mut Answers) -> Result<(), AllocError>
    ensures { Grew result out.old (out.new ++ line.new) (result_of (hashing text)) }
{
    let digest = ascon::hash256(text.as_slice());
    add_digits(&digest, b"", line, out)
}

fn xof(output: Output, line: &mut Secret, out: &mut Answers) -> Result<(), AllocError>
    ensures { Grew result out.old (out.new ++ line.new) (result_of (output_of output)) }
{
    let mut squeezed = Secret::zeros(line.heap(), output.length)?;
    ascon::cxof128(
        output.label.as_slice(),
        output.text.as_slice(),
        squeezed.as_mut_slice(),
    )
    .unwrap();
    show(squeezed.as_slice(), line, out)
}

// Adds the digits of `bytes`, or a dash if there are none.
#[tactic(auto, unfolding(lines::specs::Hex::encoded))]
fn show(bytes: &[u8], line: &mut Secret, out: &mut Answers) -> Result<(), AllocError>
    ensures { Grew result out.old (out.new ++ line.new) (shown bytes.now) }
{
    if bytes.is_empty() {
        return say(b"-", line, out);
    }
    add_digits(bytes, b"", line, out)
}

fn say(word: &[u8], line: &mut Secret, out: &mut Answers) -> Result<(), AllocError>
    ensures { Grew result out.old (out.new ++ line.new) word.now }
{
    line.clear();
    out.extend(word)
}

// Adds the digits of `text` and then of `tag`. Room is made for the one and then for both, as if
// each were added alone, but before they are there, since what is there is set aside.
fn add_digits(
    text: &[u8],
    tag: &[u8],
    line: &mut Secret,
    out: &mut Answers,
) -> Result<(), AllocError>
    ensures { Grew result out.old (out.new ++ line.new) (encoded text.now ++ encoded tag.now) }
{
    let count = text.len().saturating_mul(2);
    let whole = count.saturating_add(tag.len().saturating_mul(2));
    out.reserve(count)?;
    out.reserve(whole)?;
    line.clear();
    if out.has_room(whole.saturating_add(1)) || !line.has_room(whole) {
        out.extend_in_digits(text)?;
        return out.extend_in_digits(tag);
    }
    line.extend_in_digits(text)?;
    line.extend_in_digits(tag)
}
