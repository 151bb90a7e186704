// The sheet of a file, for numbers that were asked for.
ghost use Rattle.std.specs.Prelude.{◌≡◌, ◌<◌, length, take};
ghost use Rattle.pool.specs.Tables.{nodes as nodes_in};
ghost use Rattle.pool.specs.Made.{made};
ghost use Rattle.taylor.specs.Coefficients.{terms};
ghost use Rattle.sheet_text.specs.Sheet.{sheet_text, coefficients};
ghost use Rattle.sheet_lines.specs.Prepared.{all_short, nodes_of, expand_file, file_coefficients, Prepared};

use expand::is_point;
use pool::{Pool, Tables};
use refusals::Refusal;
use sheet_page::{Message, Page};
use sheet_text::Asked;
use taylor::{Coefficients, Expansion, TERMS};

// Whether no coefficient's text is too long.
#[tactic(auto, using(sheet_page::proofs::Whole::is_long, crate::proofs::Pages::long_one, crate::proofs::Pages::all_ones, crate::proofs::Pages::one_more_short))]
fn all_short(tables: Tables, nodes: &Coefficients) -> bool
    ensures { result ≡ all_short (nodes_in tables.entry) nodes.now }
{
    for i in 0..nodes.len() {
        let length = print::text_length(tables, nodes.at(i));
        if (length as usize) > low_bytes::TEXT_MAX {
            return false;
        }
    }
    true
}

// A constant has coefficient 0 only.
fn nodes_of(expansion: Expansion) -> Coefficients
    ensures { result ≡ nodes_of expansion }
{
    match expansion {
        Expansion::Constant(node) => Coefficients::one(node),
        Expansion::Polynomial(nodes) => nodes,
    }
}

// The coefficients as a page has them: behind them the array has zeros.
fn entries_of(nodes: &Coefficients) -> [u32; TERMS]
    ensures { take (length nodes.now) result ≡ nodes.now }
{
    let mut entries = [0; TERMS];
    // by numbers: a list of coefficients shows an entry by its number alone
    for i in 0..nodes.len() {
        entries[i as usize] = nodes.at(i);
    }
    entries
}

// The expansion of a file's root: the pool is emptied, and holds the file's nodes and those of the coefficients then.
#[tactic(auto, unfolding(pool::specs::Pool::empty))]
fn expand_file(
    file: &[u8],
    pool: &mut Pool,
    var: u32,
    point: Option<i64>,
    order: u32,
) -> Result<Expansion, Refusal>
    requires { order < terms }
    ensures { made result pool.new ≡ expand_file file.now var point order }
{
    *pool = Pool::empty();
    let root = node_read::read_file(file, pool)?;
    expand::expand_in(pool, root, var, point, order)
}

// The sheet of numbers that are in their ranges.
#[tactic(auto, using(crate::proofs::Pages::coefficients_found, crate::proofs::Pages::one_not_printed, crate::proofs::Pages::refusal_prepared))]
fn lines_of(
    file: &[u8],
    pool: &mut Pool,
    var: u32,
    point: Option<i64>,
    order: u32,
) -> Result<Page, Message>
    requires { order < terms }
    ensures { Prepared result pool.new.kinds pool.new.words (sheet_text var order point (file_coefficients file.now var order point)) }
{
    let expansion = expand_file(file, pool, var, point, order)?;
    let nodes = nodes_of(expansion);
    if !all_short(pool.tables(), &nodes) {
        return Err(Message::Refused(Refusal::NoRoom));
    }
    Ok(Page {
        var,
        order,
        point,
        lines: nodes.len(),
        nodes: entries_of(&nodes),
    })
}

// 3, 4 and 5, then the file.
#[tactic(auto, using(crate::proofs::Pages::no_variable, crate::proofs::Pages::no_point, crate::proofs::Pages::no_order, crate::proofs::Pages::in_range, crate::proofs::Pages::refusal_prepared, crate::proofs::Pages::prepared_as))]
pub fn answer_to(file: &[u8], pool: &mut Pool, asked: Asked) -> Result<Page, Message>
    ensures { Prepared result pool.new.kinds pool.new.words (sheet_text asked.var asked.order asked.point (coefficients file.now asked.var asked.order asked.point)) }
{
    if asked.var > pool::VARIABLE_MAX {
        return Err(Message::Refused(Refusal::UnknownVariable));
    }
    if !is_point(asked.point) {
        return Err(Message::Refused(Refusal::NotLiteral));
    }
    if asked.order >= TERMS as u64 {
        return Err(Message::Refused(Refusal::WrongOrder));
    }
    lines_of(
        file,
        pool,
        asked.var as u32,
        asked.point,
        asked.order as u32,
    )
}
