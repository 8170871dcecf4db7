// Each answer made flat: a value's fields, or a refusal's number and place with 0 for the rest. C's answers have fields of their
// own, so each is written out.
use crate::flat::{
    QrChart, QrFigures, QrPanelFigures, QrReading, QrRecord, QrUv, QrWritten, QrXy, QrXyz,
};
use answers::{ChartPoint, OnChart, Uv, Xy, Xyz};
use grid::{Kind, Refusal};
use panel::PanelFigures;
use readings::figures::ReportFigures;
use record::Header;

impl From<Result<u32, Refusal>> for QrReading {
    ghost use Rattle.std.specs.Prelude.{◌≡◌};
    ghost use Rattle.answers.specs.Said.{said_reading};
    ghost use Rattle.quailribbon.specs.Flat.{flat_reading};

    ghost from_gives = { λ answer r. r ≡ flat_reading (said_reading answer) };

    fn from(answer: Result<u32, Refusal>) -> QrReading {
        match answer {
            Ok(value) => QrReading {
                value,
                ..Default::default()
            },
            Err(refusal) => QrReading {
                number: refusal.number(),
                place: refusal.place,
                ..Default::default()
            },
        }
    }
}

impl From<Result<Xyz, Refusal>> for QrXyz {
    ghost use Rattle.std.specs.Prelude.{◌≡◌};
    ghost use Rattle.answers.specs.Said.{said_xyz};
    ghost use Rattle.quailribbon.specs.Flat.{flat_xyz};

    ghost from_gives = { λ answer r. r ≡ flat_xyz (said_xyz answer) };

    fn from(answer: Result<Xyz, Refusal>) -> QrXyz {
        match answer {
            Ok(Xyz { x, y, z }) => QrXyz {
                x,
                y,
                z,
                ..Default::default()
            },
            Err(refusal) => QrXyz {
                number: refusal.number(),
                place: refusal.place,
                ..Default::default()
            },
        }
    }
}

impl From<Result<Xy, Refusal>> for QrXy {
    ghost use Rattle.std.specs.Prelude.{◌≡◌};
    ghost use Rattle.answers.specs.Said.{said_xy};
    ghost use Rattle.quailribbon.specs.Flat.{flat_xy};

    ghost from_gives = { λ answer r. r ≡ flat_xy (said_xy answer) };

    fn from(answer: Result<Xy, Refusal>) -> QrXy {
        match answer {
            Ok(Xy { x, y }) => QrXy {
                x,
                y,
                ..Default::default()
            },
            Err(refusal) => QrXy {
                number: refusal.number(),
                place: refusal.place,
                ..Default::default()
            },
        }
    }
}

impl From<Result<Uv, Refusal>> for QrUv {
    ghost use Rattle.std.specs.Prelude.{◌≡◌};
    ghost use Rattle.answers.specs.Said.{said_uv};
    ghost use Rattle.quailribbon.specs.Flat.{flat_uv};

    ghost from_gives = { λ answer r. r ≡ flat_uv (said_uv answer) };

    fn from(answer: Result<Uv, Refusal>) -> QrUv {
        match answer {
            Ok(Uv { u, v }) => QrUv {
                u,
                v,
                ..Default::default()
            },
            Err(refusal) => QrUv {
                number: refusal.number(),
                place: refusal.place,
                ..Default::default()
            },
        }
    }
}

impl From<ChartPoint> for QrChart {
    ghost use Rattle.std.specs.Prelude.{◌≡◌};
    ghost use Rattle.answers.specs.declared.OnChart.TheVariants.{Point};
    ghost use Rattle.answers.specs.Said.{said_on_chart};
    ghost use Rattle.quailribbon.specs.Flat.{flat_chart};

    ghost from_gives = { λ point r. r ≡ flat_chart (said_on_chart (Point point)) };

    fn from(point: ChartPoint) -> QrChart {
        QrChart {
            x: point.x,
            y: point.y,
            u: point.u,
            v: point.v,
            ..Default::default()
        }
    }
}

impl From<Result<OnChart, Refusal>> for QrChart {
    ghost use Rattle.std.specs.Prelude.{◌≡◌};
    ghost use Rattle.answers.specs.Said.{said_chart};
    ghost use Rattle.quailribbon.specs.Flat.{flat_chart};

    ghost from_gives = { λ answer r. r ≡ flat_chart (said_chart answer) };

    fn from(answer: Result<OnChart, Refusal>) -> QrChart {
        match answer {
            Ok(OnChart::Point(point)) => point.into(),
            // Dark is refused DARK, as it is for x and y.
            Ok(OnChart::Dark) => QrChart {
                number: Refusal::from(Kind::Dark).number(),
                ..Default::default()
            },
            Err(refusal) => QrChart {
                number: refusal.number(),
                place: refusal.place,
                ..Default::default()
            },
        }
    }
}

impl From<Result<ReportFigures, Refusal>> for QrFigures {
    ghost use Rattle.std.specs.Prelude.{◌≡◌};
    ghost use Rattle.readings.specs.Figures.{said_figures};
    ghost use Rattle.quailribbon.specs.Flat.{flat_figures};

    ghost from_gives = { λ answer r. r ≡ flat_figures (said_figures answer) };

    fn from(answer: Result<ReportFigures, Refusal>) -> QrFigures {
        match answer {
            Ok(figures) => {
                let colour = QrXy::from(figures.xy);
                QrFigures {
                    photopic: figures.photopic,
                    scotopic: figures.scotopic,
                    xyz_x: figures.xyz.x,
                    xyz_y: figures.xyz.y,
                    xyz_z: figures.xyz.z,
                    xy_number: colour.number,
                    x: colour.x,
                    y: colour.y,
                    ..Default::default()
                }
            }
            Err(refusal) => QrFigures {
                number: refusal.number(),
                place: refusal.place,
                ..Default::default()
            },
        }
    }
}

impl From<Result<PanelFigures, Refusal>> for QrPanelFigures {
    ghost use Rattle.std.specs.Prelude.{◌≡◌};
    ghost use Rattle.panel.specs.Figures.{said_panel_figures};
    ghost use Rattle.quailribbon.specs.Flat.{flat_panel_figures};

    ghost from_gives = { λ answer r. r ≡ flat_panel_figures (said_panel_figures answer) };

    fn from(answer: Result<PanelFigures, Refusal>) -> QrPanelFigures {
        match answer {
            Ok(figures) => {
                let colour = QrXy::from(figures.xy);
                QrPanelFigures {
                    xyz_x: figures.xyz.x,
                    xyz_y: figures.xyz.y,
                    xyz_z: figures.xyz.z,
                    xy_number: colour.number,
                    x: colour.x,
                    y: colour.y,
                    ..Default::default()
                }
            }
            Err(refusal) => QrPanelFigures {
                number: refusal.number(),
                place: refusal.place,
                ..Default::default()
            },
        }
    }
}

impl From<Result<Header, Refusal>> for QrRecord {
    ghost use Rattle.std.specs.Prelude.{◌≡◌};
    ghost use Rattle.record.specs.Said.{said_read};
    ghost use Rattle.quailribbon.specs.Records.{flat_record};

    ghost from_gives = { λ answer r. r ≡ flat_record (said_read answer) };

    fn from(answer: Result<Header, Refusal>) -> QrRecord {
        match answer {
            Ok(Header { start, step, count }) => QrRecord {
                start,
                step,
                count,
                ..Default::default()
            },
            Err(refusal) => QrRecord {
                number: refusal.number(),
                place: refusal.place,
                ..Default::default()
            },
        }
    }
}

impl From<Result<u32, Refusal>> for QrWritten {
    ghost use Rattle.std.specs.Prelude.{◌≡◌};
    ghost use Rattle.record.specs.Said.{said_written};
    ghost use Rattle.quailribbon.specs.Records.{flat_written};

    ghost from_gives = { λ answer r. r ≡ flat_written (said_written answer) };

    fn from(answer: Result<u32, Refusal>) -> QrWritten {
        match answer {
            Ok(length) => QrWritten {
                length,
                ..Default::default()
            },
            Err(refusal) => QrWritten {
                number: refusal.number(),
                place: refusal.place,
                ..Default::default()
            },
        }
    }
}
