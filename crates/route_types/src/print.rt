ghost use Rattle.std.specs.Prelude.{◌≡◌, ◌<◌, ◌^◌, ◌++◌, ◌∷◌, [], IfOk, decimal};
ghost use Rattle.route_types.specs.Print.{octets_of, address_text, prefix_text};

use crate::address::{Address, Prefix};
use itoa::Buffer;
use text_words::Memory;

/// Puts a number's decimal text at the end of `out`, without leading zeros. Its one error is want
/// of memory.
pub fn push_number(out: &mut Vec<u8>, number: u64) -> Result<(), Memory>
    ensures { IfOk result (λ _. out.new.items ≡ out.old.items ++ decimal number) }
{
    let mut buffer = Buffer::new();
    out.extend_from_slice(buffer.format(number).as_bytes())?;
    Ok(())
}

fn push_number_and(out: &mut Vec<u8>, number: u64, mark: u8) -> Result<(), Memory>
    ensures { IfOk result (λ _. out.new.items ≡ out.old.items ++ (decimal number ++ mark ∷ [])) }
{
    push_number(out, number)?;
    out.push(mark)?;
    Ok(())
}

// The last four bytes of an address, the most significant one first.
fn octets(address: &Address) -> (u8, u8, u8, u8)
    ensures { octets_of address.now ≡ record { first = result.0; second = result.1; third = result.2; fourth = result.3 } }
{
    let bits = address.bits;
    let first = (bits / 256 / 256 / 256 % 256) as u8;
    let second = (bits / 256 / 256 % 256) as u8;
    let third = (bits / 256 % 256) as u8;
    (first, second, third, (bits % 256) as u8)
}

/// Puts the text of an IPv4 address at the end of `out`: four numbers joined by dots. Of an IPv6
/// address it is that of the last 32 bits. Its one error is want of memory.
pub fn push_address(out: &mut Vec<u8>, address: &Address) -> Result<(), Memory>
    ensures { IfOk result (λ _. out.new.items ≡ out.old.items ++ address_text address.now) }
{
    let (first, second, third, fourth) = octets(address);
    push_number_and(out, u64::from(first), b'.')?;
    push_number_and(out, u64::from(second), b'.')?;
    push_number_and(out, u64::from(third), b'.')?;
    push_number(out, u64::from(fourth))?;
    Ok(())
}

/// Puts the text of an IPv4 prefix at the end of `out`: its address as four numbers joined by
/// dots, a slash and its length. `read_prefix` reads that text as the prefix. Of an IPv6 prefix it
/// is that of the last 32 bits. Its one error is want of memory.
#[tactic(auto, unfolding(crate::specs::Print::prefix_text))]
pub fn push_prefix(out: &mut Vec<u8>, prefix: &Prefix) -> Result<(), Memory>
    ensures { IfOk result (λ _. out.new.items ≡ out.old.items ++ prefix_text prefix.now) }
{
    let address = prefix.address();
    push_address(out, &address)?;
    out.push(b'/')?;
    push_number(out, u64::from(prefix.length()))?;
    Ok(())
}
