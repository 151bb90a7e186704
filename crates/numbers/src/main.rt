// Shows the numbers at work: folded literals, residues, doubles, factorials, and the names of variables, a line each.
#![tactic(auto)]

use refusals::Refusal;
use residue::Residues;
use std::io;
use std::io::Print;
use text::Text;

// A line: what is asked, and a text that is answered, by `text`, whose contracts say which bytes a number has.
fn put_text(rt: &impl Print, what: &str, answer: Text) -> io::Result<()> {
    print!(rt; "{what}: ")?;
    rt.write_all(answer.as_bytes())?;
    println!(rt; "")
}

// The same, where the answer may be refused.
fn put_answer(rt: &impl Print, what: &str, answer: Result<Text, Refusal>) -> io::Result<()> {
    match answer {
        Ok(number) => put_text(rt, what, number),
        Err(refusal) => println!(rt; "{what}: refused {}", refusal.number()),
    }
}

fn put_literal(rt: &impl Print, what: &str, answer: Result<i64, Refusal>) -> io::Result<()> {
    put_answer(rt, what, answer.map(text::signed_text))
}

fn put_residue(rt: &impl Print, what: &str, answer: Result<u64, Refusal>) -> io::Result<()> {
    put_answer(rt, what, answer.map(text::decimal_text))
}

fn put_bits(rt: &impl Print, what: &str, x: f64) -> io::Result<()> {
    println!(rt; "{what}: {:016x}", double::bits(x))
}

fn literals(rt: &impl Print) -> io::Result<()> {
    put_literal(
        rt,
        "9007199254740991 + 1",
        literal::sum(9_007_199_254_740_991, 1),
    )?;
    put_literal(
        rt,
        "-9007199254740991 + 9007199254740990",
        literal::sum(-9_007_199_254_740_991, 9_007_199_254_740_990),
    )?;
    put_literal(
        rt,
        "94906265 * 94906265",
        literal::product(94_906_265, 94_906_265),
    )?;
    put_literal(
        rt,
        "94906266 * -94906266",
        literal::product(94_906_266, -94_906_266),
    )?;
    put_literal(
        rt,
        "-(-9007199254740991)",
        literal::negation(-9_007_199_254_740_991),
    )?;
    put_literal(rt, "exp 0", literal::exp_literal(0))?;
    put_literal(rt, "exp 1", literal::exp_literal(1))?;
    put_literal(rt, "log 1", literal::log_literal(1))
}

fn residues(rt: &impl Print) -> io::Result<()> {
    put_residue(
        rt,
        "1/2 modulo 2147483647",
        Residues::of(residue::MODULUS).quotient(1, 2),
    )?;
    put_residue(rt, "2/2 modulo 4", Residues::of(4).quotient(2, 2))?;
    put_residue(rt, "2/3 modulo 10", Residues::of(10).quotient(2, 3))?;
    let prime = Residues::of(residue::MODULUS);
    put_residue(rt, "-1 modulo 2147483647", Ok(prime.residue_of(-1)))?;
    put_residue(
        rt,
        "3^4294967295 modulo 2147483647",
        Ok(prime.power(3, 4_294_967_295)),
    )
}

fn doubles(rt: &impl Print) -> io::Result<()> {
    put_bits(rt, "1/3", double::quotient(1.0, 3.0))?;
    put_bits(rt, "0.1 + 0.2", double::sum(0.1, 0.2))?;
    put_bits(rt, "1.1^7", double::pow(1.1, 7))?;
    put_bits(rt, "0/0", double::quotient(0.0, 0.0))?;
    put_bits(
        rt,
        "max(2, 0/0)",
        double::max(2.0, double::quotient(0.0, 0.0)),
    )?;
    put_bits(
        rt,
        "max(0/0, 2)",
        double::max(double::quotient(0.0, 0.0), 2.0),
    )
}

fn names(rt: &impl Print) -> io::Result<()> {
    put_literal(rt, "18!", factorial::factorial(18))?;
    put_literal(rt, "19!", factorial::factorial(19))?;
    print!(rt; "variables 0, 25, 26, 65535:")?;
    for v in [0, 25, 26, 65_535] {
        rt.write_all(b" ")?;
        rt.write_all(text::variable_text(v).as_bytes())?;
    }
    println!(rt; "")
}

fn main(rt: HostRuntime) -> io::Result<()> {
    literals(&rt)?;
    residues(&rt)?;
    doubles(&rt)?;
    names(&rt)
}
