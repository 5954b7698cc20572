// Runs the calls of the crates below on cases, and compares every answer and every lent word with a second implementation, and the walk
// of a text with that of the same text padded. One line is printed for each group of cases: how many there are, how many differ, how many
// were taken, and how many were refused with each number of document 01.
#![tactic(auto)]

mod areas;
mod calls;
mod chance;
mod circles;
mod conversions;
mod digits;
mod drawn;
mod image;
mod limits;
mod listing;
mod nodes;
mod padded;
mod printed;
mod profiles;
mod queries;
mod reader;
mod refusal_lines;
mod rows;
mod search;
mod tally;
mod text_rows;
mod walk_rows;
mod walked;
mod writer;

use crate::tally::print_group;
use std::io;

// Prints the groups on images and on array forms.
fn print_images(rt: &(impl Print + AllocGlobal)) -> io::Result<()> {
    print_group(rt, "check_image: examples and limits", rows::check_cases)?;
    print_group(rt, "check_image: damaged images", drawn::check_cases)?;
    print_group(rt, "tail_out: damaged images", drawn::tail_cases)?;
    print_group(rt, "to_array: examples and limits", rows::conversion_cases)?;
    print_group(rt, "to_array: sound images", conversions::sound_cases)?;
    print_group(rt, "to_array: damaged images", conversions::damaged_cases)?;
    print_group(rt, "edges_out: examples and limits", rows::query_cases)?;
    print_group(rt, "edges_out: sound array forms", queries::sound_cases)?;
    print_group(rt, "edges_out: damaged array forms", queries::damaged_cases)
}

// Prints the groups on texts that are read, and on numbers.
fn print_texts(rt: &(impl Print + AllocGlobal)) -> io::Result<()> {
    print_group(rt, "read_profile: examples and limits", text_rows::cases)?;
    print_group(rt, "read_profile: texts in form", profiles::sound_cases)?;
    print_group(rt, "read_profile: damaged texts", profiles::damaged_cases)?;
    print_group(
        rt,
        "write_number and read_number: every number",
        digits::value_cases,
    )?;
    print_group(
        rt,
        "write_number: with and without room",
        digits::room_cases,
    )?;
    print_group(rt, "read_number: in form and not", digits::digits_cases)?;
    print_group(rt, "is_vertex", nodes::vertex_cases)?;
    print_group(rt, "is_link", nodes::link_cases)
}

// Prints the groups on walks, and on the lines of refusals.
fn print_walks(rt: &(impl Print + AllocGlobal)) -> io::Result<()> {
    print_group(rt, "walk_text: examples and limits", walk_rows::cases)?;
    print_group(rt, "walk_text: texts in form", walked::sound_cases)?;
    print_group(rt, "walk_text: damaged texts", walked::damaged_cases)?;
    print_group(rt, "walk_text: padded and not", padded::cases)?;
    print_group(
        rt,
        "refusal_line: every number",
        refusal_lines::number_cases,
    )?;
    print_group(
        rt,
        "refusal_line: with and without room",
        refusal_lines::room_cases,
    )
}

// Prints a line of names, and one for each group.
fn main(rt: HostRuntime) -> io::Result<()> {
    println!(rt; "group,cases,differing,0,1,2,3,4,5,6,7,8,9,10,11,12,13")?;
    print_images(&rt)?;
    print_texts(&rt)?;
    print_walks(&rt)
}
