// What the rules of `mul` say.

// What is to be built, a term of the definition's table. It is found first and then built, since the pool is only read while the rule is sought. Numbers of nodes and
// exponents are u32, literals i64.
#[derive(Clone, Copy)]
pub enum MulRule {
    // lit(0)
    Zero,
    // the node itself
    Same(u32),
    // exp(add(a, b))
    ExpSum(u32, u32),
    // lit(x * y)
    Product(i64, i64),
    // the plain node Mul(lit(x * y), c)
    Scaled(i64, i64, u32),
    // mul(x, exp(add(a, b)))
    OverExp(u32, u32, u32),
    // mul(mul(x, y), exp(add(a, b)))
    OverExps(u32, u32, u32, u32),
    // the plain node Mul(lit(x * y), mul(c, d))
    Scales(i64, i64, u32, u32),
    // the plain node Mul(a, mul(b, c))
    Under(u32, u32, u32),
    // mul(a, pow(b, e1 + e2))
    Power(u32, u32, u32, u32),
    // the plain node Mul(a, b)
    Plain(u32, u32),
}
