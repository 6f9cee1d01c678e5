// The settings of an expander: the limits of expansion, and which notes calls get.
ghost use Rattle.std.specs.Prelude.{◌≡◌};
ghost use Rattle.mbe_session.specs.Budgets as budgets;
ghost use Rattle.mbe_session.specs.Explanation.{selects};

use mbe_tt::span::{Edition, Span};

/// Selects the calls that are explained: notes say what each rule makes of them.
#[derive(Clone, Copy, Drop)]
pub enum ExplainFilter {
    Nothing,
    /// Calls that no rule expands.
    Failed,
    /// Calls that begin from byte `start` on and before byte `end` of a file.
    At { file: u32, start: u32, end: u32 },
}

impl ExplainFilter {
    /// Whether a call that begins with that token is explained.
    pub fn selects(self, call: Span, is_expanded: bool) -> bool
        ensures { result ≡ selects self call is_expanded }
    {
        match self {
            ExplainFilter::Nothing => false,
            ExplainFilter::Failed => !is_expanded,
            ExplainFilter::At { file, start, end } => {
                call.file == file && start <= call.start && call.start < end
            }
        }
    }
}

/// The settings of expansion: how far calls are expanded, in which edition, and what is noted.
#[derive(Clone, Copy, Drop)]
pub struct ExpansionSettings {
    pub edition: Edition,
    /// How deep expansions are nested: 1 expands the calls of a file, and no call in their
    /// expansions.
    pub depth: u32,
    /// How many calls are expanded at most, in all.
    pub fuel: u32,
    /// How many tokens expansions write at most, in all.
    pub max_tokens: u32,
    /// Whether each expansion of a call is noted.
    pub is_traced: bool,
    /// Whether the origin of each token of an expansion is noted.
    pub is_origin_noted: bool,
    /// The calls that are explained.
    pub explain: ExplainFilter,
    /// Whether every macro that a plain name can mean is known.
    pub is_closed: bool,
}

/// What expansions may still use of the limits of calls and of tokens. Each count is one more than
/// what is left, and 0 where more was asked for.
#[derive(Clone, Copy, Drop)]
pub struct Budget {
    pub calls: u64,
    pub tokens: u64,
}

impl Budget {
    /// Returns the budget of that many calls and tokens.
    pub fn new(calls: u32, tokens: u32) -> Budget
        ensures { result ≡ budgets.full calls tokens }
    {
        Budget {
            calls: u64::from(calls) + 1,
            tokens: u64::from(tokens) + 1,
        }
    }

    /// Returns what is left after one more call.
    pub fn with_call_spent(self) -> Budget
        ensures { result ≡ budgets.with_call_spent self }
    {
        Budget {
            calls: self.calls.saturating_sub(1),
            ..self
        }
    }

    /// Returns what is left after that many more tokens.
    pub fn with_tokens_spent(self, count: u64) -> Budget
        ensures { result ≡ budgets.with_tokens_spent count self }
    {
        Budget {
            tokens: self.tokens.saturating_sub(count),
            ..self
        }
    }

    /// Whether more calls or tokens were asked for than the limits allow.
    pub fn is_spent(self) -> bool
        ensures { result ≡ budgets.is_spent self }
    {
        self.calls == 0 || self.tokens == 0
    }
}
