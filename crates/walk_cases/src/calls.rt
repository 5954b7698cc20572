// The calls that the cases are of. No other file names the crates that they are in.
use crate::case::Case;
use crate::compare::Areas;
use crate::walker::Walker;
use arrays::ArrayForm;
use images::{Image, Vertex};
use refusals::Refusal;

// The answer of a call, with the number of its refusal.
// The second implementation says document 01's numbers, so that a wrong number of the library shows.
fn numbered<T>(answer: Result<T, Refusal>) -> Result<T, u16> {
    answer.map_err(|refusal| refusal.number())
}

// Calls the walker of the case with these areas: its events by kind, or the number of its refusal.
pub(crate) fn call(case: &Case, areas: &mut Areas) -> Result<[u32; 7], u16> {
    let n = case.vertices;
    let m = case.edges;
    let start = Vertex(case.start);
    let before = case.listed.as_slice();
    let Areas {
        links,
        tails,
        marks,
        own,
        events,
    } = areas;
    numbered(match case.walker {
        Walker::DfsRecursive => walkers::dfs_recursive(
            &image(n, m, links, tails),
            before,
            start,
            marks,
            events,
        ),
        Walker::DfsParent => walkers::dfs_parent(
            &image(n, m, links, tails),
            before,
            start,
            marks,
            own,
            events,
        ),
        Walker::DfsArray => walkers::dfs_array(
            n, m, links, tails, before, start, marks, own, events,
        ),
        Walker::BfsQueue => walkers::bfs_queue(
            &image(n, m, links, tails),
            before,
            start,
            marks,
            own,
            events,
        ),
        Walker::BfsFolded => walkers::bfs_folded(n, m, links, tails, before, start, marks, events),
    })
}

fn image<'a>(n: u16, m: u16, after: &'a [u16], tail: &'a [u16]) -> Image<'a> {
    Image { n, m, after, tail }
}

// What the words of the links show of the case.
pub(crate) fn check_links(case: &Case) -> Result<(), u16> {
    let n = case.vertices;
    let m = case.edges;
    numbered(match case.walker {
        Walker::DfsArray => {
            let form = ArrayForm {
                n,
                m,
                firsts: &case.links,
                tails: &case.tails,
            };
            arrays::check_query(&form, Vertex(case.start))
        }
        _ => images::check_image(&image(n, m, &case.links, &case.tails)),
    })
}

// Converts the linked image of the case to the array form.
pub(crate) fn to_array(
    case: &Case,
    firsts: &mut [u16],
    tails: &mut [u16],
    numbers: &mut [u16],
) -> Result<(), u16> {
    let g = image(case.vertices, case.edges, &case.links, &case.tails);
    numbered(arrays::to_array(&g, firsts, tails, numbers))
}
