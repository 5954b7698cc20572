// The panel: its figure is one lent word.
ghost use Rattle.std.specs.Prelude.{◌≡◌};
ghost use Rattle.lists.specs.Words.{overlay};
ghost use Rattle.graphs.specs.Refusals.{unless_refused};
ghost use Rattle.panel.specs.Panel.{shifted_of};
ghost use Rattle.state_words.specs.Handed.{state_words, accepted_in};

// `state_words::accept_in_words`.
#[unsafe(no_mangle)]
pub extern "C" fn profile_walker_accept(state: &mut [u16], figure: &mut u32) -> u16
    ensures number { result ≡ (accepted_in figure.old state.old).answer.number }
    ensures figure { figure.new ≡ (accepted_in figure.old state.old).panel.figure }
    ensures state { state.new ≡ unless_refused result (overlay (state_words (accepted_in figure.old state.old).answer.state) state.old) state.old }
{
    state_words::accept_in_words(state, figure)
}

// `state_words::shift_start_in_words`.
#[unsafe(no_mangle)]
pub extern "C" fn profile_walker_shift_start(figure: &mut u32)
    ensures { figure.new ≡ (shifted_of (record { figure = figure.old })).figure }
{
    state_words::shift_start_in_words(figure);
}
