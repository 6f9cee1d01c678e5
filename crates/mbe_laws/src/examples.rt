// Worked examples: small definitions and arguments, and what the specification says about them. The
// functions are empty: each contract states an example. A docstring shows the definition and the
// argument.
ghost use Rattle.mbe_semantics.specs.Examples.Examples.{EndlessExample, StyledExample, PathExample};
ghost use Rattle.mbe_semantics.specs.Examples.Examples.{TextExample, UnboundExample};
ghost use Rattle.mbe_semantics.specs.Examples.Examples.{RefusedExample, TwiceExample};
ghost use Rattle.mbe_semantics.specs.Examples.Examples.{PunctsExample, DoubleExample, LetExample};
ghost use Rattle.mbe_semantics.specs.Examples.Examples.{NoRuleExample, FrontExample, ConcatExample};
ghost use Rattle.mbe_semantics.specs.Examples.Examples.{NearestExample, EmptyExample, CountExample};
ghost use Rattle.mbe_semantics.specs.Examples.Examples.{ZipExample, UnknownExample, IndexExample};
ghost use Rattle.mbe_semantics.specs.Examples.Examples.{ListExample};
ghost use Rattle.mbe_semantics.specs.Examples.FurtherExamples.{FaultExamples, SignExample};
ghost use Rattle.mbe_semantics.specs.Examples.FurtherExamples.{PlusExample, InvisibleExample};
ghost use Rattle.mbe_semantics.specs.Examples.FurtherExamples.{NamesExample, MostBindingsExample};
ghost use Rattle.mbe_semantics.specs.Examples.FurtherExamples.{EarliestExample, MarkedExample};
ghost use Rattle.mbe_semantics.specs.Examples.FurtherExamples.{SpecifierExamples};
ghost use Rattle.mbe_semantics.specs.Examples.LogExamples.{LogExamples, DefaultExamples};
ghost use Rattle.mbe_tt.specs.Grammars.Grammar.{Grammar, IsLawful};
ghost use Rattle.mbe_semantics.specs.Examples.FirstExamples.{VerdictExamples, PairExample};
ghost use Rattle.mbe_semantics.specs.Examples.FirstExamples.{CastExample, OptionalExample};
ghost use Rattle.mbe_semantics.specs.Examples.FirstExamples.{QuoteExample, RoundsExample};
ghost use Rattle.mbe_semantics.specs.Examples.FirstExamples.{TemplateExamples, DefinitionExamples};
ghost use Rattle.mbe_semantics.specs.Examples.Sample.{open_grammar};

/// `($x:ident) => {$($x)*}; ($x:ident) => {$x}` on `a`.
pub fn endless_example()
    ensures { EndlessExample }
{}

/// `attr() () => {A}; () => {B}` on nothing.
pub fn styled_example()
    ensures { StyledExample }
{}

/// `($p:path) => {$p}` on `Vec<u8>`.
pub fn path_example()
    ensures { PathExample }
{}

/// `(1) => {}` on `"1"`, and `(foo) => {}` on `r#foo`.
pub fn text_example()
    ensures { TextExample }
{}

/// `() => {$y}` on nothing.
pub fn unbound_example()
    ensures { UnboundExample }
{}

/// Definitions that have an error.
pub fn refused_example()
    ensures { RefusedExample }
{}

/// `($x:ident $x:ident) => {$x}` on `a b`.
pub fn twice_example()
    ensures { TwiceExample }
{}

/// `($a:tt $b:tt) => {$a $b}` on `;+`.
pub fn puncts_example()
    ensures { PunctsExample }
{}

/// `($e:expr) => {$e * 2}` on `1 + 2`.
pub fn double_example()
    ensures { DoubleExample }
{}

/// `($e:expr) => {}` on `r#let`.
pub fn let_example()
    ensures { LetExample }
{}

/// `($($x:ident),*) => {$($x);*}` on `a, b`.
pub fn list_example()
    ensures { ListExample }
{}

/// `($($x:ident)*) => {$(${index()} ${len()} $x)*}` on `a b`.
pub fn index_example()
    ensures { IndexExample }
{}

/// `($x:foo) => {}; ($($t:tt)*) => {}` on `a`.
pub fn unknown_example()
    ensures { UnknownExample }
{}

/// `($($a:ident)* ; $($b:ident)*) => {$($a $b)*}` on `p q r ; s t`.
pub fn zip_example()
    ensures { ZipExample }
{}

/// `($($($x:ident)*),*) => {${count($x)} ${count($x, 1)}}` on `a b, c`.
pub fn count_example()
    ensures { CountExample }
{}

/// `($($v:vis),*) => {}` on nothing.
pub fn empty_example()
    ensures { EmptyExample }
{}

/// `(a b) => {}; (a c d) => {}` on `a c`.
pub fn nearest_example()
    ensures { NearestExample }
{}

/// `($x:ident) => {${concat($x, _bar)}}` on `foo`.
pub fn concat_example()
    ensures { ConcatExample }
{}

/// `($x:ident = $t:tt;) => { pair ($t) $x }` on `a = 1;`.
pub fn pair_example()
    ensures { PairExample }
{}

/// `$($t:ident),* as $ty:ident` on `as u32`.
pub fn cast_example()
    ensures { CastExample }
{}

/// `$(a)? $(a)?` on `a`.
pub fn optional_example()
    ensures { OptionalExample }
{}

/// `$(b $(')?)'a*` on `b 'a b`.
pub fn quote_example()
    ensures { QuoteExample }
{}

/// `$( b $(x)? )x*` on `b x b`.
pub fn rounds_example()
    ensures { RoundsExample }
{}

/// The expansions of small templates.
pub fn template_examples()
    ensures { TemplateExamples }
{}

/// Small definitions, and tokens that match.
pub fn definition_examples()
    ensures { DefinitionExamples }
{}

/// An expression at `(a b) c`, by a grammar that counts two tokens.
pub fn front_example()
    ensures { FrontExample }
{}

/// A definition without rules.
pub fn no_rule_example()
    ensures { NoRuleExample }
{}

/// Verdicts on small patterns and arguments.
pub fn verdict_examples()
    ensures { (g : Grammar) → IsLawful (open_grammar g) → VerdictExamples g }
{}

/// What small lists of commands bind.
pub fn log_examples()
    ensures { LogExamples }
{}

/// What the expansion has for missing variables, and which identifiers `concat` may join.
pub fn default_examples()
    ensures { DefaultExamples }
{}

/// Definitions with a fault, and which fault it is.
pub fn fault_examples()
    ensures { FaultExamples }
{}

/// `(-1) => {-1}; (- 2) => {- 2}; (- 3.0) => {- 3.0}; (@$lit:literal) => {$lit}` on `@-1` and
/// `- 1`.
pub fn sign_example()
    ensures { SignExample }
{}

/// `($(a)+*) => {}` on `a *`.
pub fn plus_example()
    ensures { PlusExample }
{}

/// Invisible groups in a pattern and in an argument.
pub fn invisible_example()
    ensures { InvisibleExample }
{}

/// Patterns in which a name is bound twice.
pub fn names_example()
    ensures { NamesExample }
{}

/// `(p $x:tt) => {$($x)*}; ($x:tt $y:tt) => {$($x)*}` on `p q`.
pub fn most_bindings_example()
    ensures { MostBindingsExample }
{}

/// `($x:tt) => {$($x)*}; ($y:tt) => {$($y)*}` on `p`.
pub fn earliest_example()
    ensures { EarliestExample }
{}

/// Expansions with a marker that sets a syntax context.
pub fn marked_example()
    ensures { MarkedExample }
{}

/// The kind that each specifier means, and its entry point in the grammar.
pub fn specifier_examples()
    ensures { SpecifierExamples }
{}
