// Forms of statements and expressions, filled letter by letter at the end of a text. Each function takes the state of the draws
// and answers the one behind its own.

ghost use Rattle.std.specs.Prelude.{◌≡◌, IfOk};
ghost use Rattle.vx_gen.specs.Program.{Puts, expression, expression_forms, filled, form_at, in_expression, in_statement, statement, statement_forms, variable};

use crate::draws::{drawn, next_state};
use vx_base::outcome::NoMemory;

#[tactic(auto, unfolding(crate::specs::Program::variable))]
fn push_variable(out: &mut Vec<u8>, state: u64) -> Result<u64, NoMemory>
    ensures { IfOk result (λ next. Puts (variable state) out.old.items out.new.items next) }
{
    out.push(b'a' + drawn(4, state) as u8)?;
    Ok(next_state(state))
}

#[tactic(auto, unfolding(crate::specs::Program::in_expression))]
fn push_in_expression(out: &mut Vec<u8>, letter: u8, state: u64) -> Result<u64, NoMemory>
    ensures { IfOk result (λ next. Puts (in_expression letter state) out.old.items out.new.items next) }
{
    if letter == b'V' {
        push_variable(out, state)
    } else {
        out.push(letter)?;
        Ok(state)
    }
}

fn fill_expression(out: &mut Vec<u8>, form: &[u8], state: u64) -> Result<u64, NoMemory>
    ensures { IfOk result (λ next. Puts (filled in_expression form.now state) out.old.items out.new.items next) }
{
    let mut reached = state;
    for letter in form {
        reached = push_in_expression(out, *letter, reached)?;
    }
    Ok(reached)
}

#[tactic(auto, using(crate::proofs::Beyond::no_expression), unfolding(crate::specs::Program::expression_forms))]
fn expression_form(kind: u64) -> &'static [u8]
    ensures { result.now ≡ form_at expression_forms kind }
{
    match kind {
        0 => b"V + V",
        1 => b"V * 3 - V",
        2 => b"V / ((V & 7) + 1)",
        3 => b"V % ((V & 7) + 1)",
        4 => b"(V ^ V) >> 1",
        _ => b"",
    }
}

#[tactic(auto, unfolding(crate::specs::Program::expression))]
fn push_expression(out: &mut Vec<u8>, state: u64) -> Result<u64, NoMemory>
    ensures { IfOk result (λ next. Puts (expression state) out.old.items out.new.items next) }
{
    fill_expression(out, expression_form(drawn(5, state)), next_state(state))
}

#[tactic(auto, unfolding(crate::specs::Program::in_statement))]
fn push_in_statement(out: &mut Vec<u8>, letter: u8, state: u64) -> Result<u64, NoMemory>
    ensures { IfOk result (λ next. Puts (in_statement letter state) out.old.items out.new.items next) }
{
    if letter == b'E' {
        push_expression(out, state)
    } else {
        push_in_expression(out, letter, state)
    }
}

fn fill_statement(out: &mut Vec<u8>, form: &[u8], state: u64) -> Result<u64, NoMemory>
    ensures { IfOk result (λ next. Puts (filled in_statement form.now state) out.old.items out.new.items next) }
{
    let mut reached = state;
    for letter in form {
        reached = push_in_statement(out, *letter, reached)?;
    }
    Ok(reached)
}

#[tactic(auto, using(crate::proofs::Beyond::no_statement), unfolding(crate::specs::Program::statement_forms))]
fn statement_form(kind: u64) -> &'static [u8]
    ensures { result.now ≡ form_at statement_forms kind }
{
    match kind {
        0 => b"V = E;\n",
        1 => b"m[V & 15] = E;\n",
        2 => b"V = m[V & 15];\n",
        3 => b"if (V < V) { V = E; }\n",
        4 => b"for (i = 0; i < 8; i++) { V = V + E; }\n",
        5 => b"if (V > V) { V = E; } else { V = E; }\n",
        _ => b"",
    }
}

/// Puts the line of one statement.
#[tactic(auto, unfolding(crate::specs::Program::statement))]
pub(crate) fn push_statement(out: &mut Vec<u8>, state: u64) -> Result<u64, NoMemory>
    ensures { IfOk result (λ next. Puts (statement state) out.old.items out.new.items next) }
{
    fill_statement(out, statement_form(drawn(6, state)), next_state(state))
}
