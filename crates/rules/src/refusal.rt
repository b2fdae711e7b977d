// The refusals by their numbers: the 34 of document 01's table, then those of document 02. Each is named after its rule.
ghost use Rattle.std.specs.Prelude.{◌≡◌};
ghost use Rattle.rules.specs.Answers.{refusal_number};

#[derive(Clone, Copy, Debug, PartialEq, Eq)]
pub enum Refusal {
    BadField = 1,
    OperandsMissing = 2,
    PastLimit = 3,
    BadText = 4,
    OutputTooShort = 5,
    UnaryOnLiteral = 6,
    RangeAfterOffset = 7,
    RangeAfterAt = 8,
    RangeOnNoSelector = 9,
    AtTwice = 10,
    AtOnNoSelector = 11,
    OffsetTwice = 12,
    OffsetOnNoSelector = 13,
    AggregateOfNothing = 14,
    ArgumentCount = 15,
    AggregatorAsOperator = 16,
    BoolWithoutComparison = 17,
    ScalarsCompared = 18,
    LabelInBothLists = 19,
    SetOfScalar = 20,
    SetGrouped = 21,
    SideKind = 22,
    MatchingWithoutVectors = 23,
    OperatorAsAggregator = 24,
    AggregateKind = 25,
    FixedArity = 26,
    TooFewArguments = 27,
    TooManyArguments = 28,
    NoDeclaredKinds = 29,
    ArgumentKind = 30,
    UnaryKind = 31,
    SubqueryKind = 32,
    NameTwice = 33,
    EmptySelector = 34,
    UnknownFunction = 37,
    UnlikeSignature = 38,
    WrongFlag = 41,
    LimitParameter = 42,
}

pub fn refusal_number(refusal: Refusal) -> u64
    ensures { result ≡ refusal_number refusal }
{
    refusal as u64
}
