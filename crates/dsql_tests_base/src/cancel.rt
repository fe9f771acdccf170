use dsql_cancel::{TokenFault, Tokens};
use dsql_value::{Memory, Txt};
use std::alloc::Global;
use std::test::Fail;

fn ready(alloc: Global) -> Result<Tokens, Memory> {
    let mut tokens = Tokens::new(alloc);
    tokens.reserve(2)?;
    Ok(tokens)
}

fn make_until_nine(tokens: &mut Tokens, name: Txt) -> Result<bool, TokenFault> {
    tokens.make_deadline(name, 9)
}

#[test]
fn a_deadline_cancels(rt: HostRuntime) -> Result<(), Fail> {
    let mut tokens = ready(rt.alloc())?;
    make_until_nine(&mut tokens, Txt::copy_of(rt.alloc(), "a")?)?;
    let gone = tokens.tick(rt.alloc(), 9)?;
    assert_eq!(rt; gone.as_slice().len(), 1);
    Ok(())
}
