use cell_core::{Cell, Day, Fraction, Listed, Memory, Moment, Text, Value};
use delta_core::{Delta, Keys, Mark, Puts};
use frame_json::write_reply;
use frame_types::{Body, Reply};
use std::alloc::Global;
use std::test::Fail;
use view_types::{
    Header, HeaderColumn, Shown, ShownCells, ShownRow, ShownRows, ShownType, ViewKey,
};

#[test]
fn lost_views_are_written(rt: HostRuntime) -> Result<(), Fail> {
    let alloc = rt.alloc();
    let lost = Listed::from_vec([(0, 2), (3, 1)].to_vec(alloc)?);
    let losing = Reply {
        n: 9,
        version: 4,
        body: Body::AppliedLosing {
            lost,
            port: 1,
            seq: 2,
        },
    };
    let want =
        "{\"is\":\"applied_losing\",\"lost\":[[0,2],[3,1]],\"n\":9,\"port\":1,\"seq\":2,\"version\":4}";
    assert_eq!(rt; write_reply(alloc, &losing)?.as_str(), want);
    Ok(())
}

fn column(alloc: Global, name: &str, kind: ShownType) -> Result<HeaderColumn, Memory> {
    Ok(HeaderColumn {
        text: Text::from_str(alloc, name)?,
        kind,
    })
}

fn header(alloc: Global) -> Result<Header, Memory> {
    let mut header = Listed::new(alloc);
    header.push(column(alloc, "k", ShownType::Integer)?)?;
    header.push(column(alloc, "v", ShownType::Integer)?)?;
    Ok(header)
}

fn one_key(alloc: Global) -> Result<Keys, Memory> {
    let mut path = Listed::new(alloc);
    path.push(Cell::Words(Text::from_str(alloc, "x")?))?;
    let mut keys = Listed::new(alloc);
    keys.push(ViewKey::Group(path))?;
    Ok(Keys::from_listed(keys))
}

#[test]
fn a_header_and_a_removed_key_are_written(rt: HostRuntime) -> Result<(), Fail> {
    let alloc = rt.alloc();
    let delta = Delta {
        from: Mark {
            version: 1,
            edit: 0,
        },
        to: Mark {
            version: 3,
            edit: 2,
        },
        removed: one_key(alloc)?,
        puts: Puts::from_listed(Listed::new(alloc)),
        header: Some(header(alloc)?),
    };
    let want =
        "{\"edit\":2,\"from\":[1,0],\"header\":[[\"k\",\"integer\"],[\"v\",\"integer\"]],\"is\":\"delta\",\"n\":9,\"put\":[],\"removed\":[[\"g\",\"x\"]],\"version\":3,\"view\":4}";
    let reply = Reply {
        n: 9,
        version: delta.to.version,
        body: Body::Delta { delta, view: 4 },
    };
    assert_eq!(rt; write_reply(alloc, &reply)?.as_str(), want);
    Ok(())
}

fn path(alloc: Global) -> Result<Listed<Cell>, Memory> {
    let mut path = Listed::new(alloc);
    path.push(Cell::Null)?;
    path.push(Cell::Bool(true))?;
    path.push(Cell::Int(-4))?;
    path.push(Cell::Date(Day::of(0)))?;
    path.push(Cell::Moment(Moment::of(1500)))?;
    path.push(Cell::Words(Text::from_str(alloc, "x")?))?;
    Ok(path)
}

// A quote, a backslash, a line end, a control character, and a letter of two bytes.
fn odd_text(alloc: Global) -> Result<Text, Memory> {
    Text::from_str(alloc, "\"\\\n\u{1}é")
}

fn odd_cells(alloc: Global) -> Result<ShownCells, Memory> {
    let mut cells = ShownCells::new(alloc);
    cells.put(Text::from_str(alloc, "w")?, Value::Words(odd_text(alloc)?))?;
    cells.put(Text::from_str(alloc, "b")?, Value::Bool(false))?;
    cells.put(Text::from_str(alloc, "d")?, Value::Date(Day::of(2932896)))?;
    let fraction = Fraction::reduced(-2, 6);
    cells.put(Text::from_str(alloc, "f")?, Value::Fraction(fraction))?;
    cells.put(Text::from_str(alloc, "t")?, Value::Moment(Moment::of(-1)))?;
    cells.put(Text::from_str(alloc, "m")?, Value::Whole(9007199254740991))?;
    cells.put(Text::from_str(alloc, "n")?, Value::Whole(-9007199254740992))?;
    Ok(cells)
}

#[test]
fn kinds_and_escapes_are_written(rt: HostRuntime) -> Result<(), Fail> {
    let alloc = rt.alloc();
    let mut header = Listed::new(alloc);
    header.push(HeaderColumn {
        text: odd_text(alloc)?,
        kind: ShownType::Moment,
    })?;
    let mut rows = Listed::new(alloc);
    rows.push(ShownRow {
        key: ViewKey::Group(path(alloc)?),
        mark: true,
        cells: odd_cells(alloc)?,
    })?;
    let shown = Shown {
        header,
        rows: ShownRows::from_listed(rows),
    };
    let reply = Reply {
        n: 7,
        version: 2,
        body: Body::Rows {
            edit: 1,
            from: 3,
            shown,
            size: 9,
            view: 4,
        },
    };
    let want =
        "{\"edit\":1,\"from\":3,\"header\":[[\"\\\"\\\\\\n\\u0001é\",\"datetime\"]],\"is\":\"rows\",\"n\":7,\"rows\":[[[\"g\",null,true,-4,[\"d\",\"1970-01-01\"],[\"t\",1500],\"x\"],true,{\"b\":false,\"d\":[\"d\",\"9999-12-31\"],\"f\":[-1,3],\"m\":9007199254740991,\"n\":[\"i\",\"-9007199254740992\"],\"t\":[\"t\",-1],\"w\":\"\\\"\\\\\\n\\u0001é\"}]],\"size\":9,\"version\":2,\"view\":4}";
    assert_eq!(rt; write_reply(alloc, &reply)?.as_str(), want);
    Ok(())
}
