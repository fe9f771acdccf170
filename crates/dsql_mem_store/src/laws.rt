//! Laws of stores. Some of them hold only if the store's keys ascend, which `Store::vouch` provides for each
//! store.
ghost use Rattle.dsql_mem_store.specs.Laws.{SetsOneKey, DeletesOneKey, ListsPrefix};

/// Setting a value changes only its own key, and removing a key removes only that key.
pub fn a_write_touches_one_key()
    ensures set { SetsOneKey }
    ensures deleted { DeletesOneKey }
{}

/// A list has exactly the keys with its prefix, in their order.
pub fn a_list_is_whole()
    ensures { ListsPrefix }
{}
