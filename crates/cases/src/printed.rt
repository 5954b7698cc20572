// What is printed of a walk, by the second writer.
use crate::search::Search;
use std::alloc::{AllocError, Global};

// The events and the counts of a search.
pub(crate) fn walk_lines(alloc: Global, search: &Search) -> Result<String, AllocError> {
    let mut text = String::from_str(alloc, "event,reference,element\n")?;
    for event in &search.events {
        let [kind, edge, vertex] = event.words();
        write!(text, "{kind},{edge},{vertex}\n")?;
    }
    text.push_str("elements,moves,circular\n")?;
    let labelled = search.counts.labelled;
    let moves = search.counts.moves;
    let circular = u16::from(search.counts.circular);
    write!(text, "{labelled},{moves},{circular}\n")?;
    Ok(text)
}
