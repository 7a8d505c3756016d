//! Stretches of journals as pages, dumps and still pictures.
use crate::wave_runs::ran;
use am32wave::{Form, Status, Stretch, View, traced_main};
use esc_base::{MemSink, MemSource};
use std::alloc::Global;
use std::test::Fail;

/// TICK enters, and leg A's switch to the supply goes on for half of a hundred ticks.
const JOURNAL: &str = "U 0 1\nI 5 2\nG 25 1 0\nQ 50 3\nG 75 0 0\n";

/// What stands behind a mark in a text.
fn behind<'a>(text: &'a str, mark: &str) -> &'a str {
    match text.split_once(mark) {
        Some((_, rest)) => rest,
        None => "",
    }
}

/// The data of the page of a stretch.
fn page_data(alloc: Global, from: u32, to: u32) -> Result<String, Fail> {
    let form = Form::Drawn(View::Page, Stretch { from, to });
    let (_, page) = ran(alloc, form, JOURNAL, 7, &[], &[])?;
    let data = behind(page.as_str(), "id=\"data\">\n");
    let end = "</script>\n</body>\n</html>\n";
    Ok(format!(in alloc; "{}", data.strip_suffix(end).unwrap_or("no end"))?)
}

#[test]
fn a_page_has_each_line_and_its_changes(rt: HostRuntime) -> Result<(), Fail> {
    let data = page_data(rt.alloc(), 0, u32::MAX)?;
    let told =
        "stretch 0 4294967295\nU 0 1\nI 5 2\n1`\nG 25 1 0\n1A\nQ 50 3\nb011 G\nG 75 0 0\n0A\n";
    assert_eq!(rt; data.as_str(), told);
    Ok(())
}

#[test]
fn a_stretch_begins_with_what_stands_there(rt: HostRuntime) -> Result<(), Fail> {
    let alloc = rt.alloc();
    let cases = [
        (25, 50, "stretch 25 50\n1`\nG 25 1 0\n1A\nQ 50 3\nb011 G\n"),
        (26, 49, "stretch 26 49\n1A\n1`\n"),
        (26, 50, "stretch 26 50\n1A\n1`\nQ 50 3\nb011 G\n"),
        (90, 99, "stretch 90 99\nb011 G\n1`\n"),
        (50, 25, "stretch 50 25\n1A\n1`\n"),
    ];
    for (from, to, told) in cases.iter() {
        let data = page_data(alloc, *from, *to)?;
        assert_eq!(rt; data.as_str(), *told, "{from} to {to}");
    }
    Ok(())
}

#[test]
fn a_dump_of_a_stretch_is_stamped_from_its_begin_on(rt: HostRuntime) -> Result<(), Fail> {
    let form = Form::Drawn(View::Wave, Stretch { from: 30, to: 60 });
    let (_, dump) = ran(rt.alloc(), form, JOURNAL, 4096, &[], &[])?;
    let begun = behind(dump.as_str(), "$enddefinitions $end\n");
    assert!(rt; begun.starts_with("#625000\n$dumpvars\n0!\n"));
    assert_eq!(rt; behind(begun, "$end\n"), "1!\n1@\n#1041666\nb011 '\n");
    Ok(())
}

#[test]
fn a_still_picture_paints_each_change_at_its_place(rt: HostRuntime) -> Result<(), Fail> {
    let form = Form::Drawn(View::Still, Stretch { from: 0, to: 100 });
    let (status, picture) = ran(rt.alloc(), form, JOURNAL, 7, &[], &[])?;
    assert_eq!(rt; status, Status::Done);
    let painted = behind(
        picture.as_str(),
        "y2=\"430\"/>\n<line class=\"g\" x1=\"75%\" x2=\"75%\" y1=\"20\" y2=\"430\"/>\n",
    );
    let told = "\
<use href=\"#h\" x=\"5.000%\" y=\"320\"/>
<use href=\"#h\" x=\"25.000%\" y=\"120\"/>
<use href=\"#b\" x=\"50.000%\" y=\"240\"/>
<text x=\"50.000%\" y=\"240\">3</text>
<use href=\"#l\" x=\"75.000%\" y=\"120\"/>
</svg>
</svg>
";
    assert_eq!(rt; painted, told);
    Ok(())
}

#[test]
fn a_page_has_the_lines_of_the_trace_too(rt: HostRuntime) -> Result<(), Fail> {
    let alloc = rt.alloc();
    let mut src = MemSource::new(alloc, b"U 0 1\nZ 40\n", 5, &[])?;
    let mut trace = MemSource::new(alloc, b"30 E 1\n40 C 1\n41 S 3c\n99 END\n", 5, &[])?;
    let mut out = MemSink::new(alloc, 65536, &[])?;
    let status = traced_main(View::Page, Stretch::WHOLE, &mut src, &mut trace, &mut out);
    assert_eq!(rt; status, Status::Done);
    let page = String::from_utf8_lossy(alloc, out.given())?;
    let told =
        "stretch 0 4294967295\nU 0 1\n30 E 1\n1e\n40 C 1\n1f\nZ 40\nb00000000000000000000000000000001 H\n41 S 3c\n</script>\n</body>\n</html>\n";
    assert_eq!(rt; behind(page.as_str(), "id=\"data\">\n"), told);
    Ok(())
}
