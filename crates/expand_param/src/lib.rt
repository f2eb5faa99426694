// A parameter is looked up: a name in the image of the variables, a number in that of the positional parameters. What is asked of both is told alike.
#![tactic(auto)]

ghost use Rattle.std.specs.Prelude.{◌≡◌};
ghost use Rattle.stages.specs.Images.{held, held_texts, or_empty};
ghost use Rattle.stages.specs.Items.{number_of};
ghost use Rattle.table.specs.Places.{Listed, Table};
ghost use Rattle.read_brace.specs.Shows.{Name, param_of};
ghost use Rattle.expand_param.specs.Holding.{capped, holding_in, is_shout, Finds};

use read_brace::Param;
use table::Part;

// The number of decimal digits. Those beyond the greatest are it: no image has so many texts.
pub fn number_of(digits: &[u8]) -> usize
    ensures { result ≡ capped (number_of 0 digits.now) }
{
    let mut n: usize = 0;
    for &digit in digits {
        let value = digit.saturating_sub(b'0') as usize;
        n = n.saturating_mul(10).saturating_add(value);
        if n == usize::MAX {
            break;
        }
    }
    n
}

// Where the value of a parameter is: a name's in `vars`, a number's in `params`.
pub fn look_up(text: &[u8], param: Param, vars: &[u8], params: &[u8]) -> Option<Part>
    requires { Name text.now param.from param.to × Table vars.now × Listed params.now }
    ensures { Finds vars.now params.now (param_of text.now param) result }
{
    let called = &text[param.from..param.to];
    if param.numbered {
        let number = number_of(called);
        return table_find::find_text(params, number);
    }
    table_find::look_up(vars, called)
}

// Whether a parameter that is looked up is refused: it is unset, and the switch is on.
pub fn must_shout(text: &[u8], param: Param, vars: &[u8], params: &[u8], shouts: bool) -> bool
    requires { Name text.now param.from param.to × Table vars.now × Listed params.now }
    ensures { result ≡ is_shout shouts (holding_in (held_texts params.now) (held vars.now) (param_of text.now param)) }
{
    shouts && look_up(text, param, vars, params).is_none()
}

// The value of a parameter, a part of the image itself; empty if it is unset. Told apart as in `look_up`, since table_find gives the bytes of both images too.
pub fn value_of<'a>(text: &[u8], param: Param, vars: &'a [u8], params: &'a [u8]) -> &'a [u8]
    requires { Name text.now param.from param.to × Table vars.now × Listed params.now }
    ensures { result.now ≡ or_empty (holding_in (held_texts params.now) (held vars.now) (param_of text.now param)) }
{
    let called = &text[param.from..param.to];
    if param.numbered {
        let number = number_of(called);
        return table_find::text_of(params, number);
    }
    table_find::value_of(vars, called)
}
