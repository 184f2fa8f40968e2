// The LL(1) table: what each grammar symbol does with each symbol of the text.
ghost use Rattle.std.specs.Prelude.{◌≡◌, ◌==◌};
ghost use Rattle.gier_symbol.specs.Tags.{number_of};
ghost use Rattle.gier_grammar.specs.Productions.{needs};
ghost use Rattle.gier_grammar.specs.declared.grammar_symbol.GrammarSymbol.TheVariants.{AfterOwnType};
ghost use Rattle.gier_grammar.specs.ParseTable.{parse_action, only, may, program, after_begin, block_tail, compound_tail};
ghost use Rattle.gier_grammar.specs.ParseTable.{more_declarations, more_pairs, a_type, after_own_type, after_type, bound_tail};
ghost use Rattle.gier_grammar.specs.ParseTable.{formal_tail, more_specifications, may_specifier, a_statement, after_name, branch};
ghost use Rattle.gier_grammar.specs.ParseTable.{after_branch_name, may_step, for_tail, right, an_expression, simple};
ghost use Rattle.gier_grammar.specs.ParseTable.{after_right_name, after_right_element, relation, may_sign, primary, may_part};
ghost use Rattle.gier_grammar.specs.ParseTable.{subscript_tail, actual, string_rest, actual_tail, may_times, may_sum};
ghost use Rattle.gier_grammar.specs.Paying.{IsFree, IsPaidBy};

use crate::grammar_symbol::GrammarSymbol;
use crate::production::Production;
use gier_symbol::Tag;

/// What a grammar symbol on top of the stack does with a symbol of the text.
#[derive(Debug, Clone, Copy, PartialEq, Eq)]
pub enum ParseAction {
    /// No program goes on so.
    Error,
    /// It is nothing here, and the next one meets the symbol.
    Epsilon,
    /// It takes the symbol, and this production says what is done then.
    Expand(Production),
}

/// What is done with a symbol of this kind. `left` tells how many pairs of constants may still follow.
///
/// This is the whole table: one row for each grammar symbol. All others are marks, which want no symbol.
pub fn parse_action(item: GrammarSymbol, kind: Tag, left: u64) -> ParseAction
    ensures value { result ≡ parse_action item kind left }
    ensures paid { IsPaidBy item result }
{
    match item {
        GrammarSymbol::Program => program(kind),
        GrammarSymbol::ProgramColon => only(kind, Tag::Colon, Production::ProgramColon),
        GrammarSymbol::TextEnd => only(kind, Tag::TextEnd, Production::End),
        GrammarSymbol::AfterBegin => after_begin(kind),
        GrammarSymbol::BlockTail => block_tail(kind),
        GrammarSymbol::CompoundTail => compound_tail(kind),
        GrammarSymbol::FirstDeclared => only(kind, Tag::Semicolon, Production::FirstEnded),
        GrammarSymbol::Declared => only(kind, Tag::Semicolon, Production::NextEnded),
        GrammarSymbol::MoreDeclarations => more_declarations(kind),
        GrammarSymbol::MorePairs => more_pairs(kind, left),
        GrammarSymbol::OwnType => a_type(kind, Production::OwnType),
        GrammarSymbol::AfterOwnType => after_own_type(kind),
        GrammarSymbol::OwnName => only(kind, Tag::Identifier, Production::OwnName),
        GrammarSymbol::MoreOwnNames => may(kind, Tag::Comma, Production::OwnComma),
        GrammarSymbol::FixedBounds => only(kind, Tag::LeftBracket, Production::FirstPair),
        GrammarSymbol::FixedColon => only(kind, Tag::Colon, Production::FixedUpper),
        GrammarSymbol::MoreFixedSegments => may(kind, Tag::Comma, Production::FixedSegment),
        GrammarSymbol::AfterType => after_type(kind),
        GrammarSymbol::Name => only(kind, Tag::Identifier, Production::Name),
        GrammarSymbol::MoreNames => may(kind, Tag::Comma, Production::Comma),
        GrammarSymbol::Bounds => only(kind, Tag::LeftBracket, Production::Bound),
        GrammarSymbol::BoundColon => only(kind, Tag::Colon, Production::UpperBound),
        GrammarSymbol::BoundTail => bound_tail(kind),
        GrammarSymbol::MoreSegments => may(kind, Tag::Comma, Production::Segment),
        GrammarSymbol::SwitchBecomes => only(kind, Tag::Becomes, Production::SwitchElement),
        GrammarSymbol::MoreSwitchElements => may(kind, Tag::Comma, Production::SwitchElement),
        GrammarSymbol::MayFormals => may(kind, Tag::LeftParenthesis, Production::Formals),
        GrammarSymbol::Formal => only(kind, Tag::Identifier, Production::Formal),
        GrammarSymbol::FormalTail => formal_tail(kind),
        GrammarSymbol::Heading => only(kind, Tag::Semicolon, Production::Headed),
        GrammarSymbol::MayValues => may(kind, Tag::Value, Production::Values),
        GrammarSymbol::ValueName => only(kind, Tag::Identifier, Production::ValueName),
        GrammarSymbol::MoreValueNames => may(kind, Tag::Comma, Production::ValueComma),
        GrammarSymbol::Semicolon => only(kind, Tag::Semicolon, Production::Plain),
        GrammarSymbol::MoreSpecifications => more_specifications(kind),
        GrammarSymbol::MaySpecifier => may_specifier(kind),
        GrammarSymbol::SpecifiedName => only(kind, Tag::Identifier, Production::SpecifiedName),
        GrammarSymbol::MoreSpecifiedNames => may(kind, Tag::Comma, Production::SpecifiedComma),
        GrammarSymbol::Statement => a_statement(kind),
        GrammarSymbol::AfterName => after_name(kind),
        GrammarSymbol::Branch => branch(kind),
        GrammarSymbol::AfterBranchName => after_branch_name(kind),
        GrammarSymbol::MayElse => may(kind, Tag::Else, Production::Else),
        GrammarSymbol::ForVariable => only(kind, Tag::Identifier, Production::Plain),
        GrammarSymbol::ForBecomes => only(kind, Tag::Becomes, Production::ForElement),
        GrammarSymbol::MayStep => may_step(kind),
        GrammarSymbol::ForTail => for_tail(kind),
        GrammarSymbol::Until => only(kind, Tag::Until, Production::Plain),
        GrammarSymbol::Becomes => only(kind, Tag::Becomes, Production::Right),
        GrammarSymbol::Right => right(kind),
        GrammarSymbol::AfterRightName => after_right_name(kind),
        GrammarSymbol::AfterRightElement => after_right_element(kind),
        GrammarSymbol::Expression => an_expression(kind),
        GrammarSymbol::Simple => simple(kind),
        GrammarSymbol::Then => only(kind, Tag::Then, Production::Plain),
        GrammarSymbol::Else => only(kind, Tag::Else, Production::Plain),
        GrammarSymbol::MayNot => may(kind, Tag::Not, Production::Plain),
        GrammarSymbol::MaySign => may_sign(kind),
        GrammarSymbol::Number => only(kind, Tag::Number, Production::Plain),
        GrammarSymbol::Primary => primary(kind),
        GrammarSymbol::MayPart => may_part(kind),
        GrammarSymbol::SubscriptTail => subscript_tail(kind),
        GrammarSymbol::Actual => actual(kind),
        GrammarSymbol::StringRest => string_rest(kind),
        GrammarSymbol::ActualTail => actual_tail(kind),
        GrammarSymbol::RightParenthesis => only(kind, Tag::RightParenthesis, Production::Plain),
        GrammarSymbol::MayPower => may(kind, Tag::Power, Production::Power),
        GrammarSymbol::MayTimes => may_times(kind),
        GrammarSymbol::MaySum => may_sum(kind),
        GrammarSymbol::MayRelation => relation(kind, Production::Relation),
        GrammarSymbol::MayAnd => may(kind, Tag::And, Production::And),
        GrammarSymbol::MayOr => may(kind, Tag::Or, Production::Or),
        GrammarSymbol::MayImplication => may(kind, Tag::Impl, Production::Implication),
        GrammarSymbol::MayEquivalence => may(kind, Tag::Equiv, Production::Equivalence),
        _ => ParseAction::Epsilon,
    }
}

fn is(kind: Tag, wanted: Tag) -> bool
    ensures { result ≡ (number_of kind == number_of wanted) }
{
    kind.number() == wanted.number()
}

// One kind of symbol is taken, and all others are errors.
fn only(kind: Tag, wanted: Tag, production: Production) -> ParseAction
    requires { needs production ≡ 0 }
    ensures value { result ≡ only kind wanted production }
    ensures free { IsFree result }
{
    if is(kind, wanted) {
        return ParseAction::Expand(production);
    }
    ParseAction::Error
}

// One kind of symbol is taken, and before all others this is nothing.
fn may(kind: Tag, wanted: Tag, production: Production) -> ParseAction
    requires { needs production ≡ 0 }
    ensures value { result ≡ may kind wanted production }
    ensures free { IsFree result }
{
    if is(kind, wanted) {
        return ParseAction::Expand(production);
    }
    ParseAction::Epsilon
}

fn program(kind: Tag) -> ParseAction
    ensures value { result ≡ program kind }
    ensures free { IsFree result }
{
    match kind {
        Tag::Identifier => ParseAction::Expand(Production::ProgramLabel),
        Tag::Begin => ParseAction::Expand(Production::Begin),
        _ => ParseAction::Error,
    }
}

fn after_begin(kind: Tag) -> ParseAction
    ensures value { result ≡ after_begin kind }
    ensures free { IsFree result }
{
    match kind {
        Tag::Own => ParseAction::Expand(Production::FirstOwn),
        Tag::Integer | Tag::Boolean => ParseAction::Expand(Production::FirstType),
        Tag::Switch => ParseAction::Expand(Production::FirstSwitch),
        Tag::Procedure => ParseAction::Expand(Production::FirstProcedure),
        Tag::Identifier => ParseAction::Expand(Production::CompoundName),
        Tag::Begin => ParseAction::Expand(Production::CompoundBegin),
        Tag::If => ParseAction::Expand(Production::CompoundIf),
        Tag::For => ParseAction::Expand(Production::CompoundFor),
        Tag::Goto => ParseAction::Expand(Production::CompoundGoTo),
        Tag::Semicolon => ParseAction::Expand(Production::CompoundNothing),
        Tag::End => ParseAction::Expand(Production::CompoundEmpty),
        _ => ParseAction::Error,
    }
}

fn block_tail(kind: Tag) -> ParseAction
    ensures value { result ≡ block_tail kind }
    ensures free { IsFree result }
{
    match kind {
        Tag::Semicolon => ParseAction::Expand(Production::BlockNext),
        Tag::End => ParseAction::Expand(Production::BlockEnd),
        _ => ParseAction::Error,
    }
}

fn compound_tail(kind: Tag) -> ParseAction
    ensures value { result ≡ compound_tail kind }
    ensures free { IsFree result }
{
    match kind {
        Tag::Semicolon => ParseAction::Expand(Production::CompoundNext),
        Tag::End => ParseAction::Expand(Production::CompoundEnd),
        _ => ParseAction::Error,
    }
}

fn more_declarations(kind: Tag) -> ParseAction
    ensures value { result ≡ more_declarations kind }
    ensures free { IsFree result }
{
    match kind {
        Tag::Own => ParseAction::Expand(Production::NextOwn),
        Tag::Integer | Tag::Boolean => ParseAction::Expand(Production::NextType),
        Tag::Switch => ParseAction::Expand(Production::NextSwitch),
        Tag::Procedure => ParseAction::Expand(Production::NextProcedure),
        _ => ParseAction::Epsilon,
    }
}

fn more_pairs(kind: Tag, left: u64) -> ParseAction
    ensures value { result ≡ more_pairs kind left }
    ensures free { IsFree result }
{
    match kind {
        Tag::Comma => {
            if left > 0 {
                return ParseAction::Expand(Production::NextPair);
            }
            ParseAction::Error
        }
        Tag::RightBracket => ParseAction::Expand(Production::Plain),
        _ => ParseAction::Error,
    }
}

// A type.
fn a_type(kind: Tag, production: Production) -> ParseAction
    requires { needs production ≡ 0 }
    ensures value { result ≡ a_type kind production }
    ensures free { IsFree result }
{
    match kind {
        Tag::Integer | Tag::Boolean => ParseAction::Expand(production),
        _ => ParseAction::Error,
    }
}

fn after_own_type(kind: Tag) -> ParseAction
    ensures value { result ≡ after_own_type kind }
    ensures paid { IsPaidBy AfterOwnType result }
{
    match kind {
        Tag::Identifier => ParseAction::Expand(Production::OwnNames),
        Tag::Array => ParseAction::Expand(Production::OwnArray),
        _ => ParseAction::Error,
    }
}

fn after_type(kind: Tag) -> ParseAction
    ensures value { result ≡ after_type kind }
    ensures free { IsFree result }
{
    match kind {
        Tag::Identifier => ParseAction::Expand(Production::TypeNames),
        Tag::Array => ParseAction::Expand(Production::Array),
        Tag::Procedure => ParseAction::Expand(Production::TypedProcedure),
        _ => ParseAction::Error,
    }
}

fn bound_tail(kind: Tag) -> ParseAction
    ensures value { result ≡ bound_tail kind }
    ensures free { IsFree result }
{
    match kind {
        Tag::Comma => ParseAction::Expand(Production::Bound),
        Tag::RightBracket => ParseAction::Expand(Production::Plain),
        _ => ParseAction::Error,
    }
}

fn formal_tail(kind: Tag) -> ParseAction
    ensures value { result ≡ formal_tail kind }
    ensures free { IsFree result }
{
    match kind {
        Tag::Comma => ParseAction::Expand(Production::Formals),
        Tag::RightParenthesis => ParseAction::Expand(Production::Plain),
        _ => ParseAction::Error,
    }
}

fn more_specifications(kind: Tag) -> ParseAction
    ensures value { result ≡ more_specifications kind }
    ensures free { IsFree result }
{
    match kind {
        Tag::Integer | Tag::Boolean => ParseAction::Expand(Production::TypeSpecification),
        Tag::Label | Tag::Switch | Tag::String | Tag::Procedure => ParseAction::Expand(
            Production::Specification,
        ),
        _ => ParseAction::Epsilon,
    }
}

fn may_specifier(kind: Tag) -> ParseAction
    ensures value { result ≡ may_specifier kind }
    ensures free { IsFree result }
{
    match kind {
        Tag::Array | Tag::Procedure => ParseAction::Expand(Production::Plain),
        _ => ParseAction::Epsilon,
    }
}

fn a_statement(kind: Tag) -> ParseAction
    ensures value { result ≡ a_statement kind }
    ensures free { IsFree result }
{
    match kind {
        Tag::Identifier => ParseAction::Expand(Production::StatementName),
        Tag::Begin => ParseAction::Expand(Production::Begin),
        Tag::If => ParseAction::Expand(Production::If),
        Tag::For => ParseAction::Expand(Production::For),
        Tag::Goto => ParseAction::Expand(Production::GoTo),
        _ => ParseAction::Epsilon,
    }
}

fn after_name(kind: Tag) -> ParseAction
    ensures value { result ≡ after_name kind }
    ensures free { IsFree result }
{
    match kind {
        Tag::Colon => ParseAction::Expand(Production::Label),
        Tag::Becomes => ParseAction::Expand(Production::Assignment),
        Tag::LeftParenthesis => ParseAction::Expand(Production::Call),
        Tag::LeftBracket => ParseAction::Expand(Production::Element),
        _ => ParseAction::Epsilon,
    }
}

fn branch(kind: Tag) -> ParseAction
    ensures value { result ≡ branch kind }
    ensures free { IsFree result }
{
    match kind {
        Tag::Identifier => ParseAction::Expand(Production::BranchName),
        Tag::Begin => ParseAction::Expand(Production::BranchBegin),
        Tag::For => ParseAction::Expand(Production::For),
        Tag::Goto => ParseAction::Expand(Production::BranchGoTo),
        Tag::Else => ParseAction::Expand(Production::BranchElse),
        Tag::If => ParseAction::Error,
        _ => ParseAction::Epsilon,
    }
}

fn after_branch_name(kind: Tag) -> ParseAction
    ensures value { result ≡ after_branch_name kind }
    ensures free { IsFree result }
{
    match kind {
        Tag::Colon => ParseAction::Expand(Production::BranchLabel),
        Tag::Becomes => ParseAction::Expand(Production::BranchAssignment),
        Tag::LeftParenthesis => ParseAction::Expand(Production::BranchCall),
        Tag::LeftBracket => ParseAction::Expand(Production::BranchElement),
        Tag::Else => ParseAction::Expand(Production::BranchElse),
        _ => ParseAction::Epsilon,
    }
}

fn may_step(kind: Tag) -> ParseAction
    ensures value { result ≡ may_step kind }
    ensures free { IsFree result }
{
    match kind {
        Tag::Step => ParseAction::Expand(Production::Step),
        Tag::While => ParseAction::Expand(Production::While),
        _ => ParseAction::Epsilon,
    }
}

fn for_tail(kind: Tag) -> ParseAction
    ensures value { result ≡ for_tail kind }
    ensures free { IsFree result }
{
    match kind {
        Tag::Comma => ParseAction::Expand(Production::ForElement),
        Tag::Do => ParseAction::Expand(Production::Do),
        _ => ParseAction::Error,
    }
}

fn right(kind: Tag) -> ParseAction
    ensures value { result ≡ right kind }
    ensures free { IsFree result }
{
    match kind {
        Tag::Identifier => ParseAction::Expand(Production::RightName),
        _ => an_expression(kind),
    }
}

fn an_expression(kind: Tag) -> ParseAction
    ensures value { result ≡ an_expression kind }
    ensures free { IsFree result }
{
    match kind {
        Tag::If => ParseAction::Expand(Production::Condition),
        _ => simple(kind),
    }
}

fn simple(kind: Tag) -> ParseAction
    ensures value { result ≡ simple kind }
    ensures free { IsFree result }
{
    match kind {
        Tag::Not => ParseAction::Expand(Production::FirstNot),
        Tag::Plus => ParseAction::Expand(Production::FirstPlus),
        Tag::Minus => ParseAction::Expand(Production::FirstMinus),
        Tag::Number | Tag::True | Tag::False => ParseAction::Expand(Production::FirstConstant),
        Tag::Identifier => ParseAction::Expand(Production::FirstName),
        Tag::LeftParenthesis => ParseAction::Expand(Production::FirstGroup),
        _ => ParseAction::Error,
    }
}

fn after_right_name(kind: Tag) -> ParseAction
    ensures value { result ≡ after_right_name kind }
    ensures free { IsFree result }
{
    match kind {
        Tag::LeftBracket => ParseAction::Expand(Production::RightElement),
        Tag::LeftParenthesis => ParseAction::Expand(Production::RightCall),
        _ => after_right_element(kind),
    }
}

fn after_right_element(kind: Tag) -> ParseAction
    ensures value { result ≡ after_right_element kind }
    ensures free { IsFree result }
{
    match kind {
        Tag::Becomes => ParseAction::Expand(Production::Right),
        Tag::Plus | Tag::Minus | Tag::Times | Tag::Div | Tag::Power => ParseAction::Expand(
            Production::RightArithmetic,
        ),
        Tag::And | Tag::Or | Tag::Impl | Tag::Equiv => ParseAction::Expand(Production::RightLogic),
        _ => relation(kind, Production::RightRelation),
    }
}

// A relation; before all other symbols this is nothing.
fn relation(kind: Tag, production: Production) -> ParseAction
    requires { needs production ≡ 0 }
    ensures value { result ≡ relation kind production }
    ensures free { IsFree result }
{
    match kind {
        Tag::Less | Tag::NotGreater | Tag::Equal | Tag::NotLess | Tag::Greater | Tag::NotEqual =>
            ParseAction::Expand(production),
        _ => ParseAction::Epsilon,
    }
}

fn may_sign(kind: Tag) -> ParseAction
    ensures value { result ≡ may_sign kind }
    ensures free { IsFree result }
{
    match kind {
        Tag::Plus => ParseAction::Expand(Production::LeadingPlus),
        Tag::Minus => ParseAction::Expand(Production::LeadingMinus),
        _ => ParseAction::Epsilon,
    }
}

fn primary(kind: Tag) -> ParseAction
    ensures value { result ≡ primary kind }
    ensures free { IsFree result }
{
    match kind {
        Tag::Number | Tag::True | Tag::False => ParseAction::Expand(Production::Plain),
        Tag::Identifier => ParseAction::Expand(Production::PrimaryName),
        Tag::LeftParenthesis => ParseAction::Expand(Production::Group),
        _ => ParseAction::Error,
    }
}

fn may_part(kind: Tag) -> ParseAction
    ensures value { result ≡ may_part kind }
    ensures free { IsFree result }
{
    match kind {
        Tag::LeftBracket => ParseAction::Expand(Production::Subscript),
        Tag::LeftParenthesis => ParseAction::Expand(Production::Actual),
        _ => ParseAction::Epsilon,
    }
}

fn subscript_tail(kind: Tag) -> ParseAction
    ensures value { result ≡ subscript_tail kind }
    ensures free { IsFree result }
{
    match kind {
        Tag::Comma => ParseAction::Expand(Production::Subscript),
        Tag::RightBracket => ParseAction::Expand(Production::Plain),
        _ => ParseAction::Error,
    }
}

fn actual(kind: Tag) -> ParseAction
    ensures value { result ≡ actual kind }
    ensures free { IsFree result }
{
    match kind {
        Tag::StringBegin => ParseAction::Expand(Production::StringMore),
        _ => an_expression(kind),
    }
}

fn string_rest(kind: Tag) -> ParseAction
    ensures value { result ≡ string_rest kind }
    ensures free { IsFree result }
{
    match kind {
        Tag::StringByte => ParseAction::Expand(Production::StringMore),
        Tag::StringEnd => ParseAction::Expand(Production::Plain),
        _ => ParseAction::Error,
    }
}

fn actual_tail(kind: Tag) -> ParseAction
    ensures value { result ≡ actual_tail kind }
    ensures free { IsFree result }
{
    match kind {
        Tag::Comma => ParseAction::Expand(Production::Actual),
        Tag::RightParenthesis => ParseAction::Expand(Production::Plain),
        _ => ParseAction::Error,
    }
}

fn may_times(kind: Tag) -> ParseAction
    ensures value { result ≡ may_times kind }
    ensures free { IsFree result }
{
    match kind {
        Tag::Times | Tag::Div => ParseAction::Expand(Production::Times),
        _ => ParseAction::Epsilon,
    }
}

fn may_sum(kind: Tag) -> ParseAction
    ensures value { result ≡ may_sum kind }
    ensures free { IsFree result }
{
    match kind {
        Tag::Plus | Tag::Minus => ParseAction::Expand(Production::Sum),
        _ => ParseAction::Epsilon,
    }
}
