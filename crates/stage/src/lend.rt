// The bytes that media are made over, from use to use.
ghost use Rattle.std.specs.Prelude.{◌≡◌, ◌+◌, ◌-◌, ◌*◌, ◌^◌, ◌<◌, ◌++◌, length, take, replicate, vec_len, OnOk};
ghost use Rattle.stage.specs.Pokes.{poked, poked_all};

use octets::{part, patch};
use script::Poke;
use std::alloc::AllocError;

// Makes the bytes so many: the first ones stay, and what is added is zero.
pub(super) fn refit(bytes: &mut Vec<u8>, size: usize) -> Result<(), AllocError>
    ensures { OnOk result (bytes.new.items ≡ take size bytes.old.items ++ replicate (size - vec_len bytes.old) 0) }
{
    bytes.resize(size, 0)
}

// Puts new bytes from byte `start` on; what passes the end is left out.
fn put_within(bytes: &mut [u8], start: usize, new: &[u8])
    ensures puts { bytes.new ≡ poked bytes.old start new.now }
    ensures bound { length bytes.old < 2 ^ 64 }
{
    if start < bytes.len() {
        let room = bytes.len() - start;
        patch(bytes, start, part(new, 0, room));
    }
}

// Puts a poke's bytes.
fn put_poke(bytes: &mut [u8], poke: &Poke)
    ensures { bytes.new ≡ poked bytes.old (poke.now.page * 1024 + poke.now.offset) poke.now.bytes.items }
{
    // a place that does not fit 64 bits passes the end as well
    let start = poke.page.saturating_mul(1024).saturating_add(poke.offset);
    put_within(bytes, start, poke.bytes.as_slice());
}

// Puts the bytes of pokes, one after the other.
pub(super) fn put_pokes(bytes: &mut [u8], pokes: &[Poke])
    ensures { bytes.new ≡ poked_all bytes.old pokes.now }
{
    for poke in pokes {
        put_poke(bytes, poke);
    }
}
