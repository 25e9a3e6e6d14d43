//! The laws of values, each the contract of a function that does nothing.

ghost use Rattle.json5_types.specs.EqualityLaws.{IsEquality, HashesBy, OrdersBy};
ghost use Rattle.json5_types.specs.ByteBufs.{bytes_of};
ghost use Rattle.json5_types.specs.Cows.{cow_bytes};

use crate::byte_buf::ByteBuf;
use crate::cow_str::CowStr;
use crate::decimal::Decimal;
use crate::whole::Whole;
use std::hash::Hash;

/// Numbers are equal exactly when they are the same: whole numbers have one value each, and of decimals sign, digits and exponent
/// count, so that not-a-number equals itself and -0 isn't 0.
pub fn equal_numbers()
    ensures wholes { IsEquality ⟦<Whole as PartialEq>⟧.eq }
    ensures decimals { IsEquality ⟦<Decimal as PartialEq>⟧.eq }
{}

/// Texts with the same bytes hash alike, also where one is borrowed and one isn't, and those alone come at the same point of
/// the order. So it is of bytes.
#[tactic(auto, using(crate::proofs::TextsCompared::same_place))]
pub fn equal_texts()
    ensures texts_hash { HashesBy cow_bytes ⟦<CowStr<'static> as Hash>⟧.hash_input }
    ensures texts_order { OrdersBy cow_bytes ⟦<CowStr<'static> as Ord>⟧.cmp }
    ensures bytes_hash { HashesBy bytes_of ⟦<ByteBuf as Hash>⟧.hash_input }
    ensures bytes_order { OrdersBy bytes_of ⟦<ByteBuf as Ord>⟧.cmp }
{}
