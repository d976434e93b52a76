// A family of forms whose kinds are asked for by number.
ghost use Rattle.form.specs.Numbers.{by_number_kind, by_number_bytes, by_number_reads};
ghost use Rattle.form.specs.Wrappings.{by_number_there, by_number_back};

use super::form::BadByte;
use super::forms::{Forms, Numbered, read_numbered};

// A value of a family, whose kind is the number of the kind that it has there. So a byte that is no kind's may be asked for
// too, and under it every value is refused at byte 0.
#[derive(Clone, Copy, PartialEq, Eq, Debug, Drop)]
pub struct ByNumber<F>(pub F);

impl<F: Forms> Forms for ByNumber<F>
where
    F::Kind: Numbered,
{
    type Kind = u8;

    ghost kind = { by_number_kind F.Forms.kind F.Kind.number };

    ghost bytes = { by_number_bytes F.Forms.bytes };

    ghost reads = { by_number_reads F.Kind.numbered F.Forms.reads };

    ghost short = { λ v. F.Forms.short v.0 };

    ghost there = { by_number_there F.Forms.kind F.Forms.bytes F.Forms.reads F.Kind.number F.Kind.numbered F.Kind.there F.Forms.there };

    ghost back = { by_number_back F.Forms.kind F.Forms.bytes F.Forms.reads F.Kind.number F.Kind.numbered F.Forms.back F.Kind.back };

    fn write(&self, out: &mut [u8; 200]) -> usize {
        self.0.write(out)
    }

    fn read(of: u8, value: &[u8]) -> Result<ByNumber<F>, BadByte> {
        Ok(ByNumber(read_numbered(of, value)?))
    }
}
