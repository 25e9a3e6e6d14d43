//! Calls that read and write users' own types.

use crate::print;
use crate::reads::{read, taken};
use indexmap::IndexMap;
use json5::{Result, Spanned, from_str, to_string};
use std::alloc::Global;
use std::collections::BTreeMap;
use std::io::{self, Write};
use test_own_types::{
    AtMost, Bounds, Color, Endpoint, Id, Labels, OpenPort, Pair, Reminder, Settings, settings_again,
};

fn bounds(alloc: Global, text: &str) -> Result<String> {
    let bounds: Bounds<String> = from_str(alloc, text)?;
    to_string(alloc, &(&bounds.low, &bounds.high))
}

fn ids(alloc: Global) -> Result<String> {
    let ids: Vec<Id> = taken(alloc, "[80,443]")?;
    match ids.as_slice() {
        [first, ..] => to_string(alloc, &first.number),
        [] => to_string(alloc, &()),
    }
}

fn at_most(alloc: Global, text: &str) -> Result<String> {
    let list: AtMost<String, 2> = from_str(alloc, text)?;
    to_string(alloc, &list.values)
}

fn labels(alloc: Global, text: &str) -> Result<String> {
    let labels: Labels = from_str(alloc, text)?;
    to_string(alloc, &labels.texts)
}

fn pair(alloc: Global, text: &str) -> Result<String> {
    let pair: Pair = from_str(alloc, text)?;
    to_string(alloc, &(pair.a, pair.b))
}

fn spanned(alloc: Global) -> Result<String> {
    let name: Spanned<String> = taken(alloc, " 'a'")?;
    let (start, end) = (name.start, name.end);
    Ok(format!(in alloc; "{start} to {end}")?)
}

fn again(alloc: Global) -> Result<String> {
    let settings: Settings = from_str(alloc, "{host:'a',label:'b'}")?;
    if settings.port.number == 0 {
        return to_string(alloc, &());
    }
    to_string(alloc, &settings_again(alloc, &settings)?)
}

fn print_lists<W: Write>(alloc: Global, out: &mut W) -> io::Result<()> {
    print(out, "Bounds", bounds(alloc, "['a','b']"))?;
    print(out, "Bounds of one", bounds(alloc, "['a']"))?;
    print(out, "Ids", ids(alloc))?;
    print(out, "AtMost", at_most(alloc, "['a','b']"))?;
    print(out, "AtMost of three", at_most(alloc, "['a','b','c']"))?;
    print(out, "Labels", labels(alloc, "['a','b']"))?;
    print(out, "Labels of none", labels(alloc, "[]"))?;
    print(out, "Spanned", spanned(alloc))
}

fn print_names<W: Write>(alloc: Global, out: &mut W) -> io::Result<()> {
    print(out, "Color", read::<Color>(alloc, "'blue'"))?;
    print(out, "no Color", read::<Color>(alloc, "'pink'"))?;
    print(
        out,
        "Color as a key",
        read::<BTreeMap<Color, u8>>(alloc, "{red:1,'bl\\u0075e':2}"),
    )?;
    print(
        out,
        "no Color as a key",
        read::<BTreeMap<Color, u8>>(alloc, "{pink:1}"),
    )?;
    print(out, "Id", read::<IndexMap<Id, String>>(alloc, "{'7':'a'}"))?;
    print(
        out,
        "no Id",
        read::<IndexMap<Id, String>>(alloc, "{'7.5':'a'}"),
    )
}

fn print_structs<W: Write>(alloc: Global, out: &mut W) -> io::Result<()> {
    print(out, "OpenPort", read::<OpenPort>(alloc, "8080"))?;
    print(out, "Endpoint", read::<Endpoint>(alloc, "['a',80]"))?;
    print(out, "Endpoint at 0", read::<Endpoint>(alloc, "['a',0]"))?;
    print(out, "Pair", pair(alloc, "{'\\u0061':1,b:2}"))?;
    print(out, "Pair of three", pair(alloc, "{a:1,b:2,c:3}"))?;
    print(
        out,
        "Settings",
        read::<Settings>(alloc, "{'label':'b',no:[1],host:'a'}"),
    )?;
    print(
        out,
        "Settings of none",
        read::<Settings>(alloc, "{label:'b'}"),
    )?;
    print(out, "Settings again", again(alloc))
}

fn print_reminders<W: Write>(alloc: Global, out: &mut W) -> io::Result<()> {
    print(out, "off", read::<Reminder>(alloc, "'off'"))?;
    print(out, "daily", read::<Reminder>(alloc, "{daily:7}"))?;
    print(out, "weekly", read::<Reminder>(alloc, "{weekly:[1,7]}"))?;
    print(
        out,
        "once",
        read::<Reminder>(alloc, "{once:{day:'a',hour:7}}"),
    )?;
    print(out, "never", read::<Reminder>(alloc, "'never'"))?;
    print(out, "text once", read::<Reminder>(alloc, "'once'"))?;
    print(
        out,
        "twice a day",
        read::<Reminder>(alloc, "{once:{day:'a',day:'b'}}"),
    )
}

/// Prints what each call returns.
pub(crate) fn print_all<W: Write>(alloc: Global, out: &mut W) -> io::Result<()> {
    print_lists(alloc, out)?;
    print_names(alloc, out)?;
    print_structs(alloc, out)?;
    print_reminders(alloc, out)
}
