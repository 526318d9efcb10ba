// States, sound and forged.
use definitions::options::{Flags, Form, Mode, Options, PragmaRoot, Settings};
use definitions::records::{Import, Record};
use definitions::state::State;
use store::module_imports::Store;

// Settings with no option strings.
pub fn settings(mode: Mode, development: bool, source_plugin: bool) -> Settings {
    let flags = Flags {
        jsx_plugin: true,
        self_plugin: false,
        source_plugin,
        classic: false,
        development,
        throw_if_namespace: false,
        pure: false,
        module: false,
    };
    let options = Options {
        flags,
        pragma: None,
        pragma_frag: None,
        import_source: None,
        ts_pragma: None,
        ts_pragma_frag: None,
    };
    let form = Form {
        root: PragmaRoot::Default,
        tail: 0,
    };
    Settings {
        options,
        pure: true,
        mode,
        pragma: form,
        pragma_frag: form,
    }
}

// A state with no records and nothing written.
pub fn opened(settings: Settings) -> State {
    let none = Record {
        import: Import::FileName,
        binding: 0,
    };
    let records = [none; 8];
    State {
        settings,
        records,
        count: 0,
        calls: 0,
        notices: 0,
    }
}

// The records that a state says that it has.
pub fn store_of(state: State) -> Store {
    let records = state.records;
    Store {
        records,
        count: state.count.min(255) as u8,
    }
}

// The state with an import bound as a root binds it.
pub fn bind(state: State, import: Import) -> State {
    let mut store = store_of(state);
    let _ = store.add_import(import);
    let records = store.records;
    State {
        records,
        count: usize::from(store.count),
        ..state
    }
}

// The state with a record as it is given.
pub fn put(state: State, import: Import, binding: u8) -> State {
    let count = state.count;
    if 8 <= count {
        return state;
    }
    let mut records = state.records;
    records[count] = Record { import, binding };
    State {
        records,
        count: count + 1,
        ..state
    }
}

// The state with these numbers.
pub fn filled(state: State, count: usize, calls: usize, notices: usize) -> State {
    State {
        count,
        calls,
        notices,
        ..state
    }
}
