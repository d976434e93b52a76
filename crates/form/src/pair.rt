// Two families of forms as one, so that any number of forms can be joined.
ghost use Rattle.form.specs.Pairs.{either_kind, either_bytes, either_reads, either_number, either_numbered};
ghost use Rattle.form.specs.Wrappings.{either_back, either_number_back};
ghost use Rattle.std.proofs.Common.{rules};

use super::form::BadByte;
use super::forms::{Forms, Numbered};
use either::Either;

// A value of one of two families. Its kind is a kind of one of them, so no kind is in both whatever the families are.
impl<A: Forms, B: Forms> Forms for Either<A, B> {
    type Kind = Either<A::Kind, B::Kind>;

    ghost kind = { either_kind A.Forms.kind B.Forms.kind };

    ghost bytes = { either_bytes A.Forms.bytes B.Forms.bytes };

    ghost reads = { either_reads A.Forms.reads B.Forms.reads };

    ghost short = { Prim.search rules };

    ghost there = { Prim.search rules };

    ghost back = { either_back A.Forms.kind A.Forms.bytes A.Forms.reads B.Forms.kind B.Forms.bytes B.Forms.reads A.Forms.back B.Forms.back };

    fn write(&self, out: &mut [u8; 200]) -> usize {
        match self {
            Either::Left(value) => value.write(out),
            Either::Right(value) => value.write(out),
        }
    }

    fn read(of: Either<A::Kind, B::Kind>, value: &[u8]) -> Result<Either<A, B>, BadByte> {
        match of {
            Either::Left(of) => Ok(Either::Left(A::read(of, value)?)),
            Either::Right(of) => Ok(Either::Right(B::read(of, value)?)),
        }
    }
}

// The left family has the even numbers and the right one the odd, so no number is in both whatever the families are.
impl<K: Numbered, L: Numbered> Numbered for Either<K, L> {
    ghost number = { either_number K.number L.number };

    ghost numbered = { either_numbered K.numbered L.numbered };

    ghost there = { Prim.search rules };

    ghost back = { either_number_back K.number K.numbered L.number L.numbered K.back L.back };

    fn numbered(of: u8) -> Result<Either<K, L>, BadByte> {
        if of % 2 == 0 {
            Ok(Either::Left(K::numbered(of / 2)?))
        } else {
            Ok(Either::Right(L::numbered(of / 2)?))
        }
    }
}
