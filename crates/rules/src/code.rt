// The classes of codes (token.rs): 1 to 16 are operators, 17 to 30 aggregators.
ghost use Rattle.std.specs.Prelude.{◌≡◌};
ghost use Rattle.records.specs.Code.{is_operator, is_aggregator, is_comparison, is_set_operator, is_count_values, rust_asks_scalar, is_limit, has_parameter};

pub fn is_operator(code: u64) -> bool
    ensures { result ≡ is_operator code }
{
    (1 <= code) & (code <= 16)
}

pub fn is_aggregator(code: u64) -> bool
    ensures { result ≡ is_aggregator code }
{
    (17 <= code) & (code <= 30)
}

// `==`, `>=`, `>`, `<`, `<=`, `!=`
pub fn is_comparison(code: u64) -> bool
    ensures { result ≡ is_comparison code }
{
    (code == 3) | (code == 4) | (code == 5) | (code == 8) | (code == 9) | (code == 13)
}

// `and`, `or`, `unless`
pub fn is_set_operator(code: u64) -> bool
    ensures { result ≡ is_set_operator code }
{
    (code == 6) | (code == 7) | (code == 10)
}

pub fn is_count_values(code: u64) -> bool
    ensures { result ≡ is_count_values code }
{
    code == 20
}

// `topk`, `bottomk`, `quantile`: the Rust asks a scalar of these alone
pub fn asks_scalar(code: u64) -> bool
    ensures { result ≡ rust_asks_scalar code }
{
    (code == 18) | (code == 24) | (code == 28)
}

// `limitk`, `limit_ratio`
pub fn is_limit(code: u64) -> bool
    ensures { result ≡ is_limit code }
{
    (code == 29) | (code == 30)
}

pub fn has_parameter(code: u64) -> bool
    ensures { result ≡ has_parameter code }
{
    is_count_values(code) | asks_scalar(code) | is_limit(code)
}
