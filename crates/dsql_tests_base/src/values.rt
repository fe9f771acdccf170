use dsql_value::{Bin, Items, Memory, Txt};
use std::alloc::Global;
use std::test::Fail;

fn gives_text_back(alloc: Global) -> Result<bool, Memory> {
    let text = Txt::new(String::from_str(alloc, "Ann")?);
    Ok(text.into_string().as_str() == "Ann")
}

fn gives_bytes_back(alloc: Global) -> Result<bool, Memory> {
    let bytes = Bin::new(vec![in alloc; 0, 255]?);
    Ok(bytes.into_vec().as_slice() == [0, 255].as_slice())
}

fn gives_list_back(alloc: Global) -> Result<bool, Memory> {
    let numbers = Items::new(vec![in alloc; 1u32, 2]?);
    Ok(numbers.into_vec().as_slice() == [1, 2].as_slice())
}

#[test]
fn what_a_value_is_made_from_is_given_back(rt: HostRuntime) -> Result<(), Fail> {
    assert!(rt; gives_text_back(rt.alloc())?);
    assert!(rt; gives_bytes_back(rt.alloc())?);
    assert!(rt; gives_list_back(rt.alloc())?);
    Ok(())
}
