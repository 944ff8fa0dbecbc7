//! A call of the program, and everything that it prints.

use crate::arguments::{Arguments, arguments_of};
use crate::failure::Stop;
use crate::piece::file_bytes;
use crate::registry::StoryRegistry;
use registry_names::{FromRead, Text, ToWrite};
use registry_program::program_over;
use sqlite::Unknown;
use std::alloc::{AllocError, Global};

/// Everything that a call with these arguments prints: standard output, then standard error, and
/// the status where it isn't 0. Arguments without a moment get the one that the story states.
pub fn printed(
    rt: &HostRuntime,
    alloc: Global,
    registry: &mut StoryRegistry,
    line: &str,
    at: Option<&str>,
) -> Result<String, Stop> {
    let Arguments { texts, input } = arguments_of(alloc, line)?;
    let texts = at_moment(alloc, texts, at)?;
    let input = match input {
        Some(name) => file_bytes(rt, alloc, name.as_str())?,
        None => Vec::new(alloc),
    };
    Ok(called(rt, alloc, registry, &texts, &input)?)
}

// The arguments, with the moment that the story states where they have none. A call without
// arguments has no moment.
fn at_moment(alloc: Global, texts: Vec<Text>, at: Option<&str>) -> Result<Vec<Text>, AllocError> {
    let Some(at) = at else {
        return Ok(texts);
    };
    if texts.is_empty() || has_moment(&texts) {
        return Ok(texts);
    }
    let mut all = Vec::new(alloc);
    all.push(Text::from_str(alloc, "--at")?)?;
    all.push(Text::from_str(alloc, at)?)?;
    for text in texts {
        all.push(text)?;
    }
    Ok(all)
}

fn has_moment(texts: &[Text]) -> bool {
    texts.iter().any(|text| text.as_str() == "--at" || text.as_str().starts_with("--at="))
}

fn called(
    rt: &HostRuntime,
    alloc: Global,
    registry: &mut StoryRegistry,
    texts: &[Text],
    input: &[u8],
) -> Result<String, AllocError> {
    let mut output = Vec::new(alloc);
    let mut errors = Vec::new(alloc);
    let status = program_over::<Unknown, _, _, _, _>(
        rt,
        alloc,
        registry,
        texts,
        &mut FromRead::new(input),
        &mut ToWrite::new(&mut output),
        &mut ToWrite::new(&mut errors),
    );
    let mut all = String::new(alloc);
    push_part(alloc, &mut all, &output)?;
    push_part(alloc, &mut all, &errors)?;
    if status != 0 {
        let status = format!(in alloc; "[{status}]\n")?;
        all.push_str(status.as_str())?;
    }
    Ok(all)
}

// Adds what was written to one stream. A part without a newline at its end is marked.
fn push_part(alloc: Global, all: &mut String, bytes: &[u8]) -> Result<(), AllocError> {
    let text = String::from_utf8_lossy(alloc, bytes)?;
    all.push_str(text.as_str())?;
    if text.is_empty() || text.ends_with('\n') {
        Ok(())
    } else {
        all.push_str("%\n")
    }
}
