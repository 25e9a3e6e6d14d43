//! Calls of the access of an object: `map(key,value,end)`.

use crate::call_results::{Answer, shown, unknown};
use crate::call_spelling::{Opened, by_name};
use crate::own_keys::{ByAny, ByBytes, ByNewtypeStruct, ByUnitStruct};
use json5::{ByteBuf, DeserializeKey, Error, ErrorCode, MapAccess};
use std::alloc::Global;
use std::fmt::Debug;

impl Opened for MapAccess<'_, &str> {
    fn call(&mut self, name: &str, alloc: Global) -> Answer {
        by_name!(name;
            0 "value" => value(self, alloc),
            1 "key_pending" => shown(alloc, Ok(self.key_pending())),
            2 "place" => Err(self.place(Error::new(ErrorCode::InvalidKey))),
            3 "key" => key::<String>(self, alloc),
            4 "key:any" => key::<ByAny>(self, alloc),
            5 "key:unit_struct" => key::<ByUnitStruct>(self, alloc),
            6 "key:newtype_struct" => key::<ByNewtypeStruct>(self, alloc),
            7 "key:bytes" => key::<ByBytes>(self, alloc),
            8 "key:byte_buf" => key::<ByteBuf>(self, alloc);
            unknown(alloc)
        )
    }

    fn finish(self, alloc: Global) -> Answer {
        if self.key_pending() {
            return unknown(alloc);
        }
        shown(alloc, self.end())
    }
}

fn key<'de, K: DeserializeKey<&'de str> + Debug>(
    access: &mut MapAccess<'_, &'de str>,
    alloc: Global,
) -> Answer {
    if access.key_pending() {
        return unknown(alloc);
    }
    shown(alloc, access.next_key::<K>())
}

fn value(access: &mut MapAccess<'_, &str>, alloc: Global) -> Answer {
    if !access.key_pending() {
        return unknown(alloc);
    }
    shown(alloc, access.next_value::<u8>())
}
