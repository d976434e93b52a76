// Cues and stills as the forms of one list.
ghost use Rattle.form.specs.Items.{item_form, item_bytes, item_reads, item_reads_as, kind_number, kind_numbered};
ghost use Rattle.std.specs.Prelude.{◌≡◌, Some, refl};
ghost use Rattle.std.proofs.Common.{ap, rules};
ghost use Rattle.form.specs.declared.item.Item.TheVariants.{Cue, Still};
ghost use Rattle.form.specs.declared.item.ItemKind.TheVariants.{Cue as ACue, Still as AStill};
ghost use Rattle.form.specs.Ranges.{cue_fields, still_fields};
ghost use Rattle.form.specs.Cues.{cue_of, cue_values, cue_reads};
ghost use Rattle.form.specs.Stills.{still_of, still_values, still_reads};
ghost use Rattle.form.specs.Texts.{item_text};
ghost use Rattle.form.specs.Wraps.{wrapped};
ghost use Rattle.form.specs.FormLaws.{there_is, back_is};
ghost use Rattle.form.specs.Listings.{cue_listed, still_listed};
ghost use Rattle.form.specs.Wrappings.{wrapped_so, kind_number_back};

use super::cue::Cue;
use super::form::{BadByte, RecordForm};
use super::forms::{Forms, Numbered, read_numbered};
use super::still::Still;
use std::fmt;
use std::fmt::Display;

// A cue or a still.
#[derive(Clone, Copy, PartialEq, Eq, Debug)]
pub enum Item {
    Cue(Cue),
    Still(Still),
}

impl From<Cue> for Item {
    ghost from_gives = { λ c i. i ≡ Cue c };

    fn from(cue: Cue) -> Item {
        Item::Cue(cue)
    }
}

impl From<Still> for Item {
    ghost from_gives = { λ s i. i ≡ Still s };

    fn from(still: Still) -> Item {
        Item::Still(still)
    }
}

impl Display for Item {
    ghost output = { λ i. Some (item_text i) };

    fn fmt<W: fmt::Write>(&self, f: &mut fmt::Formatter<W>) -> fmt::Result {
        match self {
            Item::Cue(cue) => cue.fmt(f),
            Item::Still(still) => still.fmt(f),
        }
    }
}

// The kinds of items.
#[derive(Clone, Copy, PartialEq, Eq, Debug)]
pub enum ItemKind {
    Cue,
    Still,
}

impl ItemKind {
    // The kind's number.
    pub fn number(&self) -> u8
        ensures { result ≡ kind_number self.now }
    {
        match self {
            ItemKind::Cue => 0,
            ItemKind::Still => 1,
        }
    }
}

// A number that is no kind's is refused as byte 0.
impl TryFrom<u8> for ItemKind {
    type Error = BadByte;

    ghost try_from_gives = { λ n r. r ≡ kind_numbered n };

    fn try_from(n: u8) -> Result<ItemKind, BadByte> {
        match n {
            0 => Ok(ItemKind::Cue),
            1 => Ok(ItemKind::Still),
            _ => Err(BadByte { at: 0 }),
        }
    }
}

impl Numbered for ItemKind {
    ghost number = { kind_number };

    ghost numbered = { kind_numbered };

    ghost there = { Prim.search rules };

    ghost back = { kind_number_back };

    fn numbered(of: u8) -> Result<ItemKind, BadByte> {
        ItemKind::try_from(of)
    }
}

impl Item {
    // Reads bytes as an item of the kind with this number.
    pub fn read_numbered(of: u8, value: &[u8]) -> Result<Item, BadByte>
        ensures { result ≡ item_reads of value.now }
    {
        read_numbered(of, value)
    }
}

impl Forms for Item {
    type Kind = ItemKind;

    ghost kind = { item_form };

    ghost bytes = { item_bytes };

    ghost reads = { item_reads_as };

    ghost short = { Prim.search rules };

    ghost there = { elim [
      | Cue c ↦ ap (wrapped Cue) (there_is cue_fields cue_values cue_of cue_listed 4 refl c)
      | Still s ↦ ap (wrapped Still) (there_is still_fields still_values still_of still_listed 8 refl s)
    ] };

    ghost back = { elim [
      | ACue ↦ λ b v bytes. wrapped_so Cue (cue_reads b) v (λ w. (item_form w ≡ ACue) × (item_bytes w ≡ b)) (λ c p. (refl, back_is cue_fields cue_values cue_of cue_listed 4 b c bytes p))
      | AStill ↦ λ b v bytes. wrapped_so Still (still_reads b) v (λ w. (item_form w ≡ AStill) × (item_bytes w ≡ b)) (λ s p. (refl, back_is still_fields still_values still_of still_listed 8 b s bytes p))
    ] };

    fn write(&self, out: &mut [u8; 200]) -> usize {
        match self {
            Item::Cue(cue) => cue.write(out),
            Item::Still(still) => still.write(out),
        }
    }

    fn read(of: ItemKind, value: &[u8]) -> Result<Item, BadByte> {
        match of {
            ItemKind::Cue => Ok(Item::Cue(Cue::read(value)?)),
            ItemKind::Still => Ok(Item::Still(Still::read(value)?)),
        }
    }
}
