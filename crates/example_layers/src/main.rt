//! Reads the settings of a shop from layers: what is built in, the variables `SHOP_..`, files, and words `path=value`.
//! Prints them, or the report of a fault in the layer that it came from. `--sample` prints a file to begin with,
//! `--page` a table in Markdown, `--schema` a JSON Schema, and `--` begins with new layers.
#![tactic(auto)]

mod settings;

use anyhow::{Result, bail};
use json5_report::Report;
use json5_settings::{Layers, faults_of, page, sample, schema, warnings};
use settings::Settings;
use std::alloc::Global;
use std::{env, fs};

/// What a new file says of its members.
const COMMENTS: [(&str, &str); 2] = [
    ("host", "The name by which the shop is reached."),
    ("workers.most", "So many requests are answered at once."),
];

fn main(rt: HostRuntime) -> Result<()> {
    let mut layers = built_in(&rt)?;
    for word in env::args(&rt)?.skip(1) {
        match word.as_str() {
            "--" => {
                println!(rt; "{}", shown(&rt, &layers)?)?;
                layers = built_in(&rt)?;
            }
            "--sample" => println!(rt; "{}", sample(rt.alloc(), &layers.merged()?, &COMMENTS)?)?,
            "--page" => print!(rt; "{}", page(rt.alloc(), &layers.merged()?, &COMMENTS)?)?,
            "--schema" => println!(rt; "{}", schema(rt.alloc(), &layers.merged()?, &COMMENTS)?)?,
            _ => add(&rt, &mut layers, &word)?,
        }
    }
    println!(rt; "{}", shown(&rt, &layers)?)?;
    Ok(())
}

/// Lays a word `path=value`, or a file, over the layers.
fn add(rt: &HostRuntime, layers: &mut Layers, word: &str) -> Result<()> {
    match word.split_once('=') {
        Some((path, value)) => layers.set(word, path, value)?,
        None => add_file(rt, layers, word)?,
    }
    Ok(())
}

/// Lays a file over the layers, and warns of what is likely a slip in it.
fn add_file(rt: &HostRuntime, layers: &mut Layers, name: &str) -> Result<()> {
    let (alloc, text) = (rt.alloc(), fs::read_to_string(rt, name)?);
    if let Err(error) = layers.add(name, &text) {
        bail!("{}", Report::new(alloc, name, &text, &error)?);
    }
    for warning in &warnings(alloc, &text)? {
        let fault = warning.fault(alloc, &text)?;
        println!(rt; "warning: {}", Report::new(alloc, name, &text, &fault)?)?;
    }
    Ok(())
}

/// The layers that lie below all others.
fn built_in(rt: &HostRuntime) -> Result<Layers> {
    let mut layers = Layers::new(rt.alloc());
    layers.add(
        "built in",
        "{ host: 'localhost', workers: { least: 1, most: 4 } }",
    )?;
    for (name, value) in env::vars(rt)? {
        layers.set_variable("SHOP_", &name, &value)?;
    }
    Ok(layers)
}

/// The settings in a line, or what is wrong with them.
fn shown(rt: &HostRuntime, layers: &Layers) -> Result<String> {
    let alloc = rt.alloc();
    let text = layers.text()?;
    let settings = match json5::from_str::<Settings>(alloc, &text) {
        Ok(settings) => settings,
        Err(_) => return all_faults(alloc, layers, &text),
    };
    let Settings {
        host,
        port,
        label,
        workers,
    } = settings;
    if workers.least > workers.most {
        return lines(
            alloc,
            layers.fault("workers.least", "more than `workers.most`")?,
        );
    }
    let name = label.unwrap_or(host);
    Ok(format!(in alloc;
        "{name}:{port}, {} to {} workers",
        workers.least, workers.most
    )?)
}

/// What is wrong with the settings, each fault in the layer that it came from.
fn all_faults(alloc: Global, layers: &Layers, text: &str) -> Result<String> {
    let mut shown = String::new(alloc);
    for fault in &faults_of(alloc, text, |text| json5::from_str::<Settings>(alloc, text))? {
        if !shown.is_empty() {
            shown.push('\n')?;
        }
        write!(shown, "{}", layers.report(text, fault)?)?;
    }
    Ok(shown)
}

fn lines(alloc: Global, report: Report) -> Result<String> {
    Ok(format!(in alloc; "{report}")?)
}
