// The panel: its figure is one lent word.
ghost use Rattle.std.specs.Prelude.{◌≡◌};
ghost use Rattle.lists.specs.Words.{overlay};
ghost use Rattle.graphs.specs.Refusals.{unless_refused};
ghost use Rattle.panel.specs.Panel.{shifted_of};
ghost use Rattle.state_words.specs.Handed.{state_words, accepted_in};

use crate::words::{read_state, write_state};
use panel::{Panel, count_card, shifted};
use refusals::Refusal;

// `panel::accept`, of the state in nine lent words.
pub fn accept_in_words(state: &mut [u16], figure: &mut u32) -> u16
    ensures number { result ≡ (accepted_in figure.old state.old).answer.number }
    ensures figure { figure.new ≡ (accepted_in figure.old state.old).panel.figure }
    ensures state { state.new ≡ unless_refused result (overlay (state_words (accepted_in figure.old state.old).answer.state) state.old) state.old }
{
    if state.len() < 9 {
        return Refusal::Area as u16;
    }
    let s = read_state(state);
    let p = Panel { figure: *figure };
    match count_card(p, s) {
        Err(refusal) => refusal.number(),
        Ok(c) => {
            *figure = c.panel.figure;
            write_state(c.state, state);
            0
        }
    }
}

// `panel::shift_start`.
pub fn shift_start_in_words(figure: &mut u32)
    ensures { figure.new ≡ (shifted_of (record { figure = figure.old })).figure }
{
    let p = Panel { figure: *figure };
    let q = shifted(p);
    *figure = q.figure;
}
